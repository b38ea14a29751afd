//! Traces.
ghost use Rattle.std.specs.Prelude.{◌≡◌, ◌++◌, OnOk, OnErr};
ghost use Rattle.cs_tx_value.specs.Reading.{Passes, Begins};
ghost use Rattle.cs_tx_types.specs.Transaction.{TraceFits, trace_front, trace_back};
ghost use Rattle.cs_tx_types.specs.Reading.{front_at, back_at};

use crate::limits::{MOST_DEPS, MOST_TRACE_OBJECTS, MOST_TRACE_VALUES};
use cs_base::{Cursor, Memory, Sequence, Writer};
use cs_tx_value::{
    Digest, Encoded, FormError, Name, Object, Value, copy_each, few_fit, read_counted,
    room_counted, skip_counted, write_counted,
};
use std::alloc::Global;

/// One call of a contract's method. An input or a reference is the 32 bytes of an object's key
/// with the object that stands under it; a dep is the number of an earlier trace. One that fits
/// has at most 64 inputs, references and outputs, 16 parameters and returns, and 15 deps.
#[derive(Drop)]
pub struct Trace {
    pub contract: Digest,
    pub method: Name,
    pub inputs: Sequence<(Digest, Object)>,
    pub references: Sequence<(Digest, Object)>,
    pub parameters: Sequence<Value>,
    pub outputs: Sequence<Object>,
    pub returns: Sequence<Value>,
    pub deps: Sequence<u8>,
}

#[tactic(auto, using(cs_base::proofs::Many::behind_pair), unfolding(crate::specs::Reading::front_at))]
fn skip_front(cursor: &mut Cursor<'_>) -> Result<(), FormError>
    ensures { Passes result cursor.new (front_at cursor.old) }
{
    Digest::skip(cursor)?;
    Name::skip(cursor)?;
    skip_counted::<(Digest, Object)>(cursor, MOST_TRACE_OBJECTS)?;
    skip_counted::<(Digest, Object)>(cursor, MOST_TRACE_OBJECTS)
}

#[tactic(auto, using(cs_base::proofs::Many::behind_pair), unfolding(crate::specs::Reading::back_at))]
fn skip_back(cursor: &mut Cursor<'_>) -> Result<(), FormError>
    ensures { Passes result cursor.new (back_at cursor.old) }
{
    skip_counted::<Value>(cursor, MOST_TRACE_VALUES)?;
    skip_counted::<Object>(cursor, MOST_TRACE_OBJECTS)?;
    skip_counted::<Value>(cursor, MOST_TRACE_VALUES)?;
    skip_counted::<u8>(cursor, MOST_DEPS)
}

fn put_front(trace: &Trace, out: &mut Writer) -> Result<(), Memory>
    requires { TraceFits trace.now }
    ensures ok { OnOk result (out.new ≡ out.old ++ trace_front trace.now) }
    ensures err { OnErr result (Begins out.new out.old) }
{
    trace.contract.encode(out)?;
    trace.method.encode(out)?;
    write_counted(&trace.inputs, out)?;
    write_counted(&trace.references, out)
}

fn put_back(trace: &Trace, out: &mut Writer) -> Result<(), Memory>
    requires { TraceFits trace.now }
    ensures ok { OnOk result (out.new ≡ out.old ++ trace_back trace.now) }
    ensures err { OnErr result (Begins out.new out.old) }
{
    write_counted(&trace.parameters, out)?;
    write_counted(&trace.outputs, out)?;
    write_counted(&trace.returns, out)?;
    write_counted(&trace.deps, out)
}

impl Encoded for Trace {
    ghost use Rattle.cs_tx_value.specs.laws.Limits.{unlimited};
    ghost use Rattle.cs_tx_types.specs.Transaction.{trace_encoding, TraceFits};
    ghost use Rattle.cs_tx_types.specs.Reading.{trace_at};
    ghost use Rattle.cs_tx_types.specs.laws.Session.{trace_form};

    ghost encoding = { trace_encoding };

    ghost Fits = { TraceFits };

    ghost found_at = { trace_at };

    ghost LIMIT = { 18446744073709551615 };

    const LIMIT: usize = usize::MAX;

    #[tactic(auto, unfolding(crate::specs::Reading::trace_at, crate::specs::Reading::front_at, crate::specs::Reading::back_at, cs_base::specs::Fields::pair_at))]
    fn read(alloc: Global, cursor: &mut Cursor<'_>) -> Result<Trace, FormError> {
        let contract = Digest::read(alloc, cursor)?;
        let method = Name::read(alloc, cursor)?;
        let inputs = read_counted(alloc, cursor, MOST_TRACE_OBJECTS)?;
        let references = read_counted(alloc, cursor, MOST_TRACE_OBJECTS)?;
        let parameters = read_counted(alloc, cursor, MOST_TRACE_VALUES)?;
        let outputs = read_counted(alloc, cursor, MOST_TRACE_OBJECTS)?;
        let returns = read_counted(alloc, cursor, MOST_TRACE_VALUES)?;
        let deps = read_counted(alloc, cursor, MOST_DEPS)?;
        Ok(Trace {
            contract,
            method,
            inputs,
            references,
            parameters,
            outputs,
            returns,
            deps,
        })
    }

    #[tactic(auto, using(cs_base::proofs::Many::behind_map), unfolding(crate::specs::Reading::trace_at, cs_base::specs::Fields::pair_at))]
    fn skip(cursor: &mut Cursor<'_>) -> Result<(), FormError> {
        skip_front(cursor)?;
        skip_back(cursor)
    }

    fn encode(&self, out: &mut Writer) -> Result<(), Memory> {
        put_front(self, out)?;
        put_back(self, out)
    }

    fn fits(&self) -> bool {
        if !self.contract.fits() || !self.method.fits() {
            return false;
        }
        if !few_fit(&self.inputs, MOST_TRACE_OBJECTS)
            || !few_fit(&self.references, MOST_TRACE_OBJECTS)
        {
            return false;
        }
        if !few_fit(&self.parameters, MOST_TRACE_VALUES)
            || !few_fit(&self.outputs, MOST_TRACE_OBJECTS)
        {
            return false;
        }
        if !few_fit(&self.returns, MOST_TRACE_VALUES) {
            return false;
        }
        few_fit(&self.deps, MOST_DEPS)
    }

    fn room(&self, room: usize) -> Option<usize> {
        let room = self.contract.room(room)?;
        let room = self.method.room(room)?;
        let room = room_counted(&self.inputs, room)?;
        let room = room_counted(&self.references, room)?;
        let room = room_counted(&self.parameters, room)?;
        let room = room_counted(&self.outputs, room)?;
        let room = room_counted(&self.returns, room)?;
        room_counted(&self.deps, room)
    }

    fn copy(&self, alloc: Global) -> Result<Trace, Memory> {
        Ok(Trace {
            contract: self.contract,
            method: self.method.copy(alloc)?,
            inputs: copy_each(alloc, &self.inputs)?,
            references: copy_each(alloc, &self.references)?,
            parameters: copy_each(alloc, &self.parameters)?,
            outputs: copy_each(alloc, &self.outputs)?,
            returns: copy_each(alloc, &self.returns)?,
            deps: copy_each(alloc, &self.deps)?,
        })
    }

    ghost form = { trace_form };

    ghost short = { λ trace fits lt. unlimited _ lt };
}
