//! What is in sight at a place of a contract text.
ghost use Rattle.std.specs.Prelude.{◌≡◌, take, length, OnOk, IfErr};
ghost use Rattle.cs_types_kinds.specs.Scopes.{at_top, in_sight, is_seen, is_created_entry, name_seen, created_slot, is_declared, with_name, sight_with_names, entered_scope, below_method};

use crate::fault::TypeError;
use crate::kind::Kind;
use cs_base::Sequence;
use cs_lang::ContractTree;
use std::alloc::Global;
use std::marker::Model;

/// What may be done with a name.
#[derive(Clone, Copy)]
pub enum Use {
    Read,
    Set,
    /// It is a created slot of a procedure: only `make` fills it, and nothing reads it.
    Make,
}

/// What a name stands for.
#[derive(Clone, Copy)]
pub struct Seen {
    pub kind: Kind,
    pub usage: Use,
}

/// A name of a method.
#[derive(Drop)]
pub struct Entry {
    pub name: Sequence<u8>,
    pub seen: Seen,
}

/// What a method's bodies cost at most.
#[derive(Clone, Copy)]
pub struct Costs {
    pub procedure: u64,
    pub check: u64,
}

impl Use {
    /// Whether the name can be read.
    pub fn in_sight(self) -> bool
        ensures { result ≡ in_sight self }
    {
        match self {
            Use::Make => false,
            _ => true,
        }
    }
}

impl Entry {
    /// Whether it is the name, and in sight.
    fn is_seen(&self, name: &[u8]) -> bool
        ensures { result ≡ is_seen name.now self.now }
    {
        self.seen.usage.in_sight() && self.name.as_slice() == name
    }

    /// Whether it is the name of a created slot that is out of sight.
    fn is_created(&self, name: &[u8]) -> bool
        ensures { result ≡ is_created_entry name.now self.now }
    {
        !self.seen.usage.in_sight() && self.name.as_slice() == name
    }
}

/// What the first entry stands for that is the name and in sight.
fn seen_in(entries: &[Entry], name: &[u8]) -> Option<Seen>
    ensures { result ≡ name_seen name.now entries.now }
{
    for entry in entries {
        if entry.is_seen(name) {
            return Some(entry.seen);
        }
    }
    None
}

/// What the first entry stands for that is the name of a created slot out of sight.
fn created_in(entries: &[Entry], name: &[u8]) -> Option<Seen>
    ensures { result ≡ created_slot name.now entries.now }
{
    for entry in entries {
        if entry.is_created(name) {
            return Some(entry.seen);
        }
    }
    None
}

/// What is in sight at a place of a contract, and what the methods above cost.
#[derive(Drop)]
pub struct Scope<'a> {
    contract: &'a ContractTree,
    costs: Vec<Costs>,
    starred: bool,
    in_check: bool,
    names: Vec<Entry>,
}

impl<'a> Model for Scope<'a> {
    ghost use Rattle.std.specs.Coded.{codes};
    ghost use Rattle.cs_lang.specs.contracts.tree.ValueKind as kinds;
    ghost use Rattle.cs_lang.specs.contracts.tree.Expr as exprs;
    ghost use Rattle.cs_lang.specs.contracts.tree.Block as blocks;
    ghost use Rattle.cs_types_kinds.specs.Scopes.{InSight};

    ghost Value = { InSight };

    ghost coded = { Prim.hlevel (codes, kinds.the_row.coded, exprs.the_row.coded, blocks.the_row.coded) };

    ghost view = { λ s. record { contract = s.contract.now; costs = s.costs.items; starred = s.starred; in_check = s.in_check; names = s.names.items } };
}

impl<'a> Scope<'a> {
    /// The scope above the first method.
    pub fn new(alloc: Global, contract: &'a ContractTree) -> Self
        ensures { result ≡ at_top contract.now }
    {
        Scope {
            contract,
            costs: Vec::new(alloc),
            starred: false,
            in_check: false,
            names: Vec::new(alloc),
        }
    }

    /// The contract.
    pub fn contract(&self) -> &'a ContractTree
        ensures { result.now ≡ self.now.contract }
    {
        self.contract
    }

    /// The costs of the methods above.
    pub fn costs(&self) -> &[Costs]
        ensures { result.now ≡ self.now.costs }
    {
        self.costs.as_slice()
    }

    /// Gives back the costs of the methods above.
    pub fn into_costs(self) -> Sequence<Costs>
        ensures { result ≡ self.entry.costs }
    {
        Sequence::from_vec(self.costs)
    }

    /// Whether the method consumes or reads any number of objects.
    pub fn is_starred(&self) -> bool
        ensures { result ≡ self.now.starred }
    {
        self.starred
    }

    /// Whether it is a check.
    pub fn in_check(&self) -> bool
        ensures { result ≡ self.now.in_check }
    {
        self.in_check
    }

    /// What a name in sight stands for.
    pub fn find(&self, name: &[u8]) -> Option<Seen>
        ensures { result ≡ name_seen name.now self.now.names }
    {
        seen_in(self.names.as_slice(), name)
    }

    /// What a created slot stands for.
    pub fn find_created(&self, name: &[u8]) -> Option<Seen>
        ensures { result ≡ created_slot name.now self.now.names }
    {
        created_in(self.names.as_slice(), name)
    }

    /// Whether it is a name, in sight or not.
    pub fn is_declared(&self, name: &[u8]) -> bool
        ensures { result ≡ is_declared name.now self.now.names }
    {
        self.names
            .as_slice()
            .iter()
            .any(|entry| entry.name.as_slice() == name)
    }

    /// The number of names.
    pub fn names(&self) -> usize
        ensures { result ≡ length self.now.names }
    {
        self.names.len()
    }

    /// Adds a name.
    pub fn add(
        &mut self,
        alloc: Global,
        name: &[u8],
        kind: Kind,
        usage: Use,
    ) -> Result<(), TypeError>
        ensures ok { OnOk result
            (self.new ≡ sight_with_names self.old (with_name self.old.names name.now kind usage)) }
        ensures err { IfErr result (λ e. e ≡ TypeError.Memory) }
    {
        self.names.push(Entry {
            name: Sequence::from_vec(Vec::from_slice(alloc, name)?),
            seen: Seen { kind, usage },
        })?;
        Ok(())
    }

    /// Drops all but so many of the first names.
    pub fn leave(&mut self, names: usize)
        ensures { self.new ≡ sight_with_names self.old (take names self.old.names) }
    {
        self.names.truncate(names);
    }

    /// Begins a procedure or a check, without names.
    pub fn enter(&mut self, starred: bool, in_check: bool)
        ensures { self.new ≡ entered_scope self.old starred in_check }
    {
        self.starred = starred;
        self.in_check = in_check;
        self.names.clear();
    }

    /// Goes on below the method, with what its bodies cost.
    pub fn close(&mut self, costs: Costs) -> Result<(), TypeError>
        ensures ok { OnOk result (self.new ≡ below_method self.old costs) }
        ensures err { IfErr result (λ e. e ≡ TypeError.Memory) }
    {
        self.costs.push(costs)?;
        Ok(())
    }
}
