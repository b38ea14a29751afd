//! Contracts.
ghost use Rattle.std.specs.Prelude.{◌≡◌, true};
ghost use Rattle.cs_lang.specs.Texts.{HasText};
ghost use Rattle.cs_lang.specs.Fits.{contract_fits};

use crate::tree::ContractTree;
use std::marker::Model;

/// What a text spells: no other tree is a contract. Contracts see it as its tree.
#[derive(Drop)]
pub struct Contract {
    tree: ContractTree,
}

impl Model for Contract {
    ghost use Rattle.std.specs.Coded.{codes};
    ghost use Rattle.cs_lang.specs.contracts.tree.ValueKind as kinds;
    ghost use Rattle.cs_lang.specs.contracts.tree.Expr as exprs;
    ghost use Rattle.cs_lang.specs.contracts.tree.Block as blocks;
    ghost use Rattle.cs_lang.specs.declared.tree.ContractTree.{ContractTree};
    ghost use Rattle.cs_lang.specs.Texts.{HasText};

    ghost Value = { ContractTree };

    ghost coded = { Prim.hlevel (codes, kinds.the_row.coded, exprs.the_row.coded, blocks.the_row.coded) };

    ghost view = { λ c. c.tree };

    ghost invariant = { λ c. HasText c.tree };
}

impl Contract {
    /// The contract of a tree that a text spells.
    pub(crate) fn new(tree: ContractTree) -> Contract
        requires { HasText tree }
        ensures { result ≡ tree }
    {
        Contract { tree }
    }

    /// The tree.
    #[tactic(auto, using(crate::proofs::Fitting::texts_fit))]
    pub fn tree(&self) -> &ContractTree
        ensures value { result.now ≡ self.now }
        ensures spelled { HasText self.now }
        // Its operators are of the rank of their chain, its literals within their limits.
        ensures fits { contract_fits self.now ≡ true }
    {
        &self.tree
    }
}
