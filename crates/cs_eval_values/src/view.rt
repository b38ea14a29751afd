//! What a check looks at.
ghost use Rattle.std.specs.Prelude.{◌≡◌, map, slice_get, IfOk};
ghost use Rattle.std.specs.Option.{option_map};
ghost use Rattle.cs_eval_values.specs.Lending.{dep_of};

use crate::objects::Objects;
use cs_base::{Memory, Sequence};
use cs_tx_value::{Digest, Name, Object, Value};
use std::alloc::Global;
use std::marker::Model;

/// A trace that another one stands on: what a check may ask of it.
#[derive(Drop)]
pub struct Dep {
    pub contract: Digest,
    pub method: Name,
    pub returns: Sequence<Value>,
}

/// What a check looks at. The contract is the id of the text whose check runs: "this contract".
#[derive(Drop)]
pub struct View {
    pub contract: Digest,
    pub inputs: Sequence<Object>,
    pub reads: Sequence<Object>,
    pub params: Sequence<Value>,
    pub outputs: Sequence<Object>,
    pub returns: Sequence<Value>,
    pub deps: Sequence<Dep>,
}

/// A `Dep` that lends its parts.
#[derive(Clone, Copy)]
pub struct LentDep<'a> {
    pub contract: &'a Digest,
    pub method: &'a [u8],
    pub returns: &'a [Value],
}

/// A `View` that lends its parts, so that one can be made of what stands in a trace.
#[derive(Drop)]
pub struct LentView<'a> {
    contract: &'a Digest,
    inputs: Objects<'a>,
    reads: Objects<'a>,
    params: &'a [Value],
    outputs: Objects<'a>,
    returns: &'a [Value],
    deps: Vec<LentDep<'a>>,
}

impl<'a> Model for LentView<'a> {
    ghost use Rattle.cs_eval_values.specs.declared.view.View.{View};
    ghost use Rattle.cs_eval_values.specs.ViewCode.{view_code};

    ghost Value = { View };

    ghost coded = { view_code };

    ghost use Rattle.std.specs.Prelude.{map};
    ghost use Rattle.cs_eval_values.specs.Lending.{dep_of};

    ghost view = { λ s. record {
      contract = s.contract.now;
      inputs = s.inputs;
      reads = s.reads;
      params = s.params.now;
      outputs = s.outputs;
      returns = s.returns.now;
      deps = map dep_of s.deps.items;
    } };
}

fn lend_deps(alloc: Global, deps: &[Dep]) -> Result<Vec<LentDep<'_>>, Memory>
    ensures { IfOk result (λ lent. map dep_of lent.items ≡ deps.now) }
{
    let mut lent = Vec::with_capacity(alloc, deps.len())?;
    for dep in deps {
        lent.push(LentDep {
            contract: &dep.contract,
            method: dep.method.as_slice(),
            returns: dep.returns.as_slice(),
        })?;
    }
    Ok(lent)
}

impl View {
    /// Lends its parts.
    pub fn lend(&self, alloc: Global) -> Result<LentView<'_>, Memory>
        ensures { IfOk result (λ lent. lent ≡ self.now) }
    {
        Ok(LentView {
            contract: &self.contract,
            inputs: Objects::alone(self.inputs.as_slice()),
            reads: Objects::alone(self.reads.as_slice()),
            params: self.params.as_slice(),
            outputs: Objects::alone(self.outputs.as_slice()),
            returns: self.returns.as_slice(),
            deps: lend_deps(alloc, self.deps.as_slice())?,
        })
    }
}

impl<'a> LentView<'a> {
    /// Of parts that stand somewhere.
    pub fn new(
        contract: &'a Digest,
        inputs: Objects<'a>,
        reads: Objects<'a>,
        params: &'a [Value],
        outputs: Objects<'a>,
        returns: &'a [Value],
        deps: Vec<LentDep<'a>>,
    ) -> LentView<'a>
        ensures { result ≡ record {
          contract = contract.now;
          inputs = inputs.entry;
          reads = reads.entry;
          params = params.now;
          outputs = outputs.entry;
          returns = returns.now;
          deps = map dep_of deps.entry.items;
        } }
    {
        LentView {
            contract,
            inputs,
            reads,
            params,
            outputs,
            returns,
            deps,
        }
    }

    /// The id of the contract that is checked.
    pub fn contract(&self) -> &'a Digest
        ensures { result.now ≡ self.now.contract }
    {
        self.contract
    }

    /// The objects that are used up.
    pub fn inputs(&self) -> Objects<'a>
        ensures { result ≡ self.now.inputs }
    {
        self.inputs.share()
    }

    /// The objects that are only read.
    pub fn reads(&self) -> Objects<'a>
        ensures { result ≡ self.now.reads }
    {
        self.reads.share()
    }

    /// The parameters.
    pub fn params(&self) -> &'a [Value]
        ensures { result.now ≡ self.now.params }
    {
        self.params
    }

    /// The objects that are made.
    pub fn outputs(&self) -> Objects<'a>
        ensures { result ≡ self.now.outputs }
    {
        self.outputs.share()
    }

    /// What is returned.
    pub fn returns(&self) -> &'a [Value]
        ensures { result.now ≡ self.now.returns }
    {
        self.returns
    }

    /// The dep of this number.
    pub fn dep(&self, number: u64) -> Option<LentDep<'a>>
        ensures { option_map dep_of result ≡ slice_get self.now.deps number }
    {
        match usize::try_from(number) {
            Ok(number) => self.deps.as_slice().get(number).copied(),
            Err(_) => None,
        }
    }
}
