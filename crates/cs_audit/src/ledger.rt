//! The plain ledger, which has no shards, votes, locks or sessions.
ghost use Rattle.std.specs.Prelude.{◌≡◌, ◌≤◌, ◌++◌, ◌&&◌, Bool, List, [], IsTrue, IfOk, OnOk, All, map, length};
ghost use Rattle.std.specs.List.{flat_map, AllByRecursion};
ghost use Rattle.cs_tx_types.specs.declared.limits.TheConstants.{MOST_TRACE_OBJECTS};
ghost use Rattle.cs_tx_types.specs.declared.transaction.Tx.{Tx as AnyTx};
ghost use Rattle.cs_tx_types.specs.Transaction.{TxFits, TraceFits, Keyed, KeyedFits};
ghost use Rattle.cs_tx_value.specs.Object.{ObjectFits, object_encoding};
ghost use Rattle.cs_tx.specs.Digest.{digest_of_tx, outputs_at, outputs_from};
ghost use Rattle.cs_tx.specs.Sessions.{item_of};
ghost use Rattle.cs_tx.specs.Uses.{names as names_in};
ghost use Rattle.cs_table.specs.Genesis.{keyed_of, with_keyed};
ghost use Rattle.cs_ledger.specs.Ledger.{Ledger as Plain, genesis_ledger, ledger_after, apart, all_differ};
ghost use Rattle.cs_audit_rules.specs.History.{holds_all as holds_each};
ghost use Rattle.cs_audit_rules.specs.Slots.{is_just};
ghost use Rattle.cs_audit.specs.Ledgers.{ShowsLedger, with_appeared, without, with_created, with_objects, has_room_for, seen_tx};

use cs_base::{Key, Memory};
use cs_tx::{Digest, Encoded, Object, Trace, Tx, output_name};
use indexmap::{IndexMap, IndexSet};
use std::alloc::Global;

/// The object under each name, and every name that was ever created.
#[derive(Drop)]
pub(crate) struct Ledger {
    active: IndexMap<Digest, Object>,
    created: IndexSet<Digest>,
}

// Adds the outputs of the trace of this number under their names.
fn add_outputs(
    alloc: Global,
    found: &mut Vec<(Digest, Object)>,
    digest: &Digest,
    trace: u16,
    outputs: &[Object],
) -> Result<(), Memory>
    requires { length outputs.now ≤ MOST_TRACE_OBJECTS }
    ensures { OnOk result (found.new.items
        ≡ found.old.items ++ outputs_at digest.now trace 0 outputs.now) }
{
    for place in 0..outputs.len() {
        let name = output_name(digest, trace, place as u16);
        found.push((name, outputs[place].copy(alloc)?))?;
    }
    Ok(())
}

// The outputs of a transaction of this digest under their names.
fn named_outputs(alloc: Global, tx: &Tx, digest: &Digest) -> Result<Vec<(Digest, Object)>, Memory>
    requires { TxFits tx.now }
    ensures outputs { IfOk result (λ outputs. outputs.items
        ≡ flat_map (λ items. items) (outputs_from digest.now 0 tx.now.traces)) }
    ensures fit { IfOk result (λ outputs.
        AllByRecursion (λ item. ObjectFits item.1) outputs.items) }
{
    let mut found = Vec::new(alloc);
    let traces = tx.traces.as_slice();
    for number in 0..traces.len() {
        let outputs = traces[number].outputs.as_slice();
        add_outputs(alloc, &mut found, digest, number as u16, outputs)?;
    }
    Ok(found)
}

impl Ledger {
    /// The ledger of these objects.
    pub(crate) fn genesis(alloc: Global, items: &[(Key, Object)]) -> Result<Ledger, Memory>
        requires { All (λ item. ObjectFits item.1) items.now }
        ensures { IfOk result (λ ledger.
            ShowsLedger ledger (genesis_ledger (map item_of (keyed_of items.now)))) }
    {
        let mut ledger = Ledger {
            active: IndexMap::new(alloc),
            created: IndexSet::new(alloc),
        };
        for item in items {
            ledger.begin(alloc, &item.0, &item.1)?;
        }
        Ok(ledger)
    }

    // Adds a genesis object. Of several under one name the first counts.
    fn begin(&mut self, alloc: Global, key: &Key, object: &Object) -> Result<(), Memory>
        requires { ObjectFits object.now }
        ensures { (items : List Keyed) →
            ShowsLedger self.old (genesis_ledger (map item_of items)) → OnOk result
            (ShowsLedger self.new (genesis_ledger
            (map item_of (items ++ with_keyed key.now object.now [])))) }
    {
        match key {
            Key::Object(name) => {
                self.appear(alloc, name, object)?;
                self.created.insert(*name)?;
                Ok(())
            }
            Key::Dummy(..) => Ok(()),
        }
    }

    // Brings an object, unless one is there under its name.
    fn appear(&mut self, alloc: Global, name: &Digest, object: &Object) -> Result<(), Memory>
        requires { ObjectFits object.now }
        ensures { (ledger : Plain) → ShowsLedger self.old ledger → OnOk result (ShowsLedger self.new
            (with_appeared name.now (object_encoding object.now) ledger)) }
    {
        if self.active.contains_key(name) {
            return Ok(());
        }
        self.active.insert(*name, object.copy(alloc)?)?;
        Ok(())
    }

    // Whether exactly this object is under its name.
    fn holds(&self, item: &(Digest, Object)) -> bool
        requires { ObjectFits item.now.1 }
        ensures { (ledger : Plain) → ShowsLedger self.now ledger →
            result ≡ is_just (item_of item.now).object (ledger.active (item_of item.now).name) }
    {
        match self.active.get(&item.0) {
            Some(object) => object.same(&item.1),
            None => false,
        }
    }

    fn holds_all(&self, items: &[(Digest, Object)]) -> bool
        requires { AllByRecursion KeyedFits items.now }
        ensures { (ledger : Plain) → ShowsLedger self.now ledger →
            result ≡ holds_each ledger (map item_of items.now) }
    {
        for item in items {
            if !self.holds(item) {
                return false;
            }
        }
        true
    }

    // Whether each input and reference is there with exactly the carried object.
    fn holds_used(&self, traces: &[Trace]) -> bool
        requires { AllByRecursion TraceFits traces.now }
        ensures { (ledger : Plain) → ShowsLedger self.now ledger → result ≡
            (holds_each ledger (map item_of (flat_map (λ trace. trace.inputs) traces.now))
            && holds_each ledger
            (map item_of (flat_map (λ trace. trace.references) traces.now))) }
    {
        for trace in traces {
            if !self.holds_all(trace.inputs.as_slice()) {
                return false;
            }
            if !self.holds_all(trace.references.as_slice()) {
                return false;
            }
        }
        true
    }

    // Creates names, or answers false where one was created before.
    fn create(&mut self, outputs: &[(Digest, Object)]) -> Result<bool, Memory>
        ensures new { (ledger : Plain) → ShowsLedger self.old ledger → IfOk result (λ new. new ≡
            (apart (names_in outputs.now) ledger.created && all_differ (names_in outputs.now))) }
        ensures shows { (ledger : Plain) → ShowsLedger self.old ledger → IfOk result (λ new.
            IsTrue new → ShowsLedger self.new (with_created (names_in outputs.now) ledger)) }
    {
        for item in outputs {
            if !self.created.insert(item.0)? {
                return Ok(false);
            }
        }
        Ok(true)
    }

    fn use_up(&mut self, items: &[(Digest, Object)])
        ensures { (ledger : Plain) → ShowsLedger self.old ledger →
            ShowsLedger self.new (without (names_in items.now) ledger) }
    {
        for item in items {
            let _ = self.active.swap_remove(&item.0);
        }
    }

    fn use_inputs_up(&mut self, traces: &[Trace])
        ensures { (ledger : Plain) → ShowsLedger self.old ledger → ShowsLedger self.new
            (without (names_in (flat_map (λ trace. trace.inputs) traces.now)) ledger) }
    {
        for trace in traces {
            self.use_up(trace.inputs.as_slice());
        }
    }

    // Brings objects. Of several under one name the first counts, so it comes last.
    fn bring(&mut self, mut outputs: Vec<(Digest, Object)>) -> Result<(), Memory>
        requires { AllByRecursion (λ item. ObjectFits item.1) outputs.items }
        ensures { (ledger : Plain) → ShowsLedger self.old ledger → OnOk result
            (ShowsLedger self.new (with_objects (map item_of outputs.items) ledger)) }
    {
        while let Some(item) = outputs.pop() {
            let name = item.0;
            self.active.insert(name, item.1)?;
        }
        Ok(())
    }

    /// Takes a transaction of this digest, that is well formed and approved; or answers false, and
    /// isn't used again.
    pub(crate) fn take(&mut self, alloc: Global, tx: &Tx, digest: &Digest) -> Result<bool, Memory>
        requires { TxFits tx.now }
        ensures takes { (approves : AnyTx → Bool) (ledger : Plain) →
            digest.now ≡ digest_of_tx tx.now → ShowsLedger self.old ledger →
            IfOk result (λ taken. taken ≡ has_room_for ledger (seen_tx approves tx.now)) }
        ensures after { (approves : AnyTx → Bool) (ledger : Plain) →
            digest.now ≡ digest_of_tx tx.now → ShowsLedger self.old ledger → IfOk result (λ taken.
            IsTrue taken → ShowsLedger self.new (ledger_after ledger (seen_tx approves tx.now))) }
    {
        if !self.holds_used(tx.traces.as_slice()) {
            return Ok(false);
        }
        let outputs = named_outputs(alloc, tx, digest)?;
        if !self.create(outputs.as_slice())? {
            return Ok(false);
        }
        self.use_inputs_up(tx.traces.as_slice());
        self.bring(outputs)?;
        Ok(true)
    }
}
