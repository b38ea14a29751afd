//! The tests of a session, in their order.
ghost use Rattle.std.specs.Prelude.{◌≡◌, ◌≤◌, ◌++◌, ◌==◌, ◌||◌, [], length, Option, IfOk, nat_lt, bytes_eq};
ghost use Rattle.std.specs.List.{list_any, list_all};
ghost use Rattle.std.specs.Option.{option_map};
ghost use Rattle.cs_base.specs.Key.{shard_of_key};
ghost use Rattle.cs_base.specs.declared.key.Key.TheVariants.{Object as object_key};
ghost use Rattle.cs_tx_types.specs.Transaction.{TxFits};
ghost use Rattle.cs_tx_types.specs.Session.{SessionFits};
ghost use Rattle.cs_tx.specs.Uses.{is_among};
ghost use Rattle.cs_tx.specs.WellFormed.{has, first_twice, first_failing, is_object_of, has_own_objects, has_earlier_deps, rising_from, are_rising, is_served, fault_of, FindsFault};

use crate::malformed::Malformed;
use crate::names::Names;
use crate::uses::is_one_in;
use cs_base::{Config, Key, shard_of};
use cs_tx_types::{Session, Trace, Tx};
use cs_tx_value::{Digest, Object};
use std::alloc::Global;

fn are_of(contract: &Digest, items: &[(Digest, Object)]) -> bool
    ensures { result ≡ list_all (λ item. is_object_of contract.now item.1) items.now }
{
    items.iter().all(|item| item.1.contract == *contract)
}

fn are_made_by(contract: &Digest, objects: &[Object]) -> bool
    ensures { result ≡ list_all (is_object_of contract.now) objects.now }
{
    objects.iter().all(|object| object.contract == *contract)
}

fn is_own(trace: &Trace) -> bool
    ensures { result ≡ has_own_objects 0 trace.now }
{
    are_of(&trace.contract, trace.inputs.as_slice())
        && are_made_by(&trace.contract, trace.outputs.as_slice())
}

/// The first trace with an object of another contract.
fn foreign_trace(tx: &Tx) -> Option<u16>
    requires { TxFits tx.now }
    ensures { result ≡ first_failing has_own_objects 0 tx.now.traces }
{
    let traces = tx.traces.as_slice();
    for number in 0..traces.len() {
        if !is_own(&traces[number]) {
            return Some(number as u16);
        }
    }
    None
}

fn rests_on_earlier(number: u16, trace: &Trace) -> bool
    ensures { result ≡ has_earlier_deps number trace.now }
{
    let deps = trace.deps.as_slice();
    deps.iter().all(|dep| u16::from(*dep) < number)
}

/// The first trace that rests on itself or a later one.
fn trace_with_late_dep(tx: &Tx) -> Option<u16>
    requires { TxFits tx.now }
    ensures { result ≡ first_failing has_earlier_deps 0 tx.now.traces }
{
    let traces = tx.traces.as_slice();
    for number in 0..traces.len() {
        if !rests_on_earlier(number as u16, &traces[number]) {
            return Some(number as u16);
        }
    }
    None
}

fn rise_from(shard: u16, dummies: &[(u16, u64)]) -> bool
    ensures { result ≡ rising_from shard dummies.now }
{
    let mut last = shard;
    for dummy in dummies {
        if last >= dummy.0 {
            return false;
        }
        last = dummy.0;
    }
    true
}

fn rise(dummies: &[(u16, u64)]) -> bool
    ensures { result ≡ are_rising dummies.now }
{
    match dummies {
        [] => true,
        [first, later @ ..] => rise_from(first.0, later),
    }
}

fn has_dummy(dummies: &[(u16, u64)], shard: u16) -> bool
    ensures { result ≡ list_any (λ dummy. dummy.0 == shard) dummies.now }
{
    dummies.iter().any(|dummy| dummy.0 == shard)
}

fn is_name_served(config: &Config, inputs: &[Digest], dummies: &[(u16, u64)], name: &Digest) -> bool
    ensures { result ≡ is_served config.now inputs.now dummies.now name.now }
{
    let shard = shard_of(config, &Key::Object(*name));
    is_one_in(config, shard, inputs) || has_dummy(dummies, shard)
}

fn are_served(config: &Config, inputs: &[Digest], dummies: &[(u16, u64)], names: &[Digest]) -> bool
    ensures { result ≡ list_all (is_served config.now inputs.now dummies.now) names.now }
{
    names
        .iter()
        .all(|name| is_name_served(config, inputs, dummies, name))
}

impl Names {
    ghost use Rattle.std.specs.Prelude.{◌≡◌, []};
    ghost use Rattle.std.specs.List.{list_all};
    ghost use Rattle.cs_tx.specs.Uses.{all_of};
    ghost use Rattle.cs_tx.specs.WellFormed.{first_twice, wants_dummy, is_served, are_right};

    /// The first input that is an earlier one, or a reference.
    fn twice_used(&self) -> Option<Digest>
        ensures { result ≡ first_twice self.now.references [] self.now.inputs }
    {
        let inputs = self.inputs.as_slice();
        let references = self.references.as_slice();
        for i in 0..inputs.len() {
            if inputs[..i].contains(&inputs[i]) || references.contains(&inputs[i]) {
                return Some(inputs[i]);
            }
        }
        None
    }

    fn want_dummy(&self, config: &Config, shard: u16) -> bool
        ensures { result ≡ wants_dummy config.now self.now.inputs (all_of self.now) shard }
    {
        self.concern(config, shard) && !is_one_in(config, shard, self.inputs.as_slice())
    }

    fn want_each(&self, config: &Config, dummies: &[(u16, u64)]) -> bool
        ensures { result ≡
            list_all (λ dummy. wants_dummy config.now self.now.inputs (all_of self.now) dummy.0)
            dummies.now }
    {
        dummies.iter().all(|dummy| self.want_dummy(config, dummy.0))
    }

    fn are_all_served(&self, config: &Config, dummies: &[(u16, u64)]) -> bool
        ensures { result ≡
            list_all (is_served config.now self.now.inputs dummies.now) (all_of self.now) }
    {
        let inputs = self.inputs.as_slice();
        are_served(config, inputs, dummies, inputs)
            && are_served(config, inputs, dummies, self.references.as_slice())
            && are_served(config, inputs, dummies, self.outputs.as_slice())
    }

    /// Whether the session's dummies are those that its names want.
    fn fit_dummies(&self, config: &Config, session: &Session) -> bool
        ensures { result ≡
            are_right config.now self.now.inputs (all_of self.now) session.now.dummies }
    {
        let dummies = session.dummies.as_slice();
        rise(dummies) && self.want_each(config, dummies) && self.are_all_served(config, dummies)
    }
}

/// The first test that a session fails: `Malformed` has them in their order.
pub fn well_formed(alloc: Global, session: &Session, config: &Config) -> Result<(), Malformed>
    requires { SessionFits session.now }
    ensures { FindsFault result (fault_of config.now session.now) }
{
    let names = Names::of(alloc, &session.tx)?;
    if names.inputs.len() == 0 {
        return Err(Malformed::NoInput);
    }
    if let Some(name) = names.twice_used() {
        return Err(Malformed::TwiceUsed(Key::Object(name)));
    }
    if let Some(trace) = foreign_trace(&session.tx) {
        return Err(Malformed::Foreign(trace));
    }
    if let Some(trace) = trace_with_late_dep(&session.tx) {
        return Err(Malformed::Dep(trace));
    }
    if !names.fit_dummies(config, session) {
        return Err(Malformed::Dummies);
    }
    Ok(())
}
