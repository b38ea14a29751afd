//! What a node is given, as it is kept.
ghost use Rattle.std.specs.Prelude.{◌≡◌, ◌++◌, ◌∷◌, [], length, IfOk, OnOk};
ghost use Rattle.cs_journal.specs.Records.{record_bytes, input_in, InputFits};

use cs_base::{Memory, Writer};
use std::alloc::Global;

/// What a node is given.
#[derive(Clone, Copy, Debug)]
pub enum Given<'a> {
    /// Some time has passed.
    Tick,
    /// The bytes that came, whatever they are.
    Datagram(&'a [u8]),
}

/// How many bytes are kept of it.
pub fn record_length(given: Given<'_>) -> usize
    requires { InputFits (input_in given) }
    ensures { result ≡ length (record_bytes (input_in given.entry)) }
{
    match given {
        Given::Tick => 5,
        Given::Datagram(bytes) => 5 + bytes.len(),
    }
}

/// What is kept of it, and a closed gate behind.
pub fn record_and_gate(alloc: Global, given: Given<'_>) -> Result<Vec<u8>, Memory>
    requires { InputFits (input_in given) }
    ensures { IfOk result (λ bytes. bytes.items ≡ record_bytes (input_in given.entry) ++ 0 ∷ []) }
{
    let mut out = Writer::with_room(alloc, record_length(given) + 1)?;
    put_record(&mut out, given)?;
    out.u8(0)?;
    Ok(out.into_bytes())
}

fn put_record(out: &mut Writer, given: Given<'_>) -> Result<(), Memory>
    requires { InputFits (input_in given) }
    ensures { OnOk result (out.new ≡ out.old ++ record_bytes (input_in given.entry)) }
{
    match given {
        Given::Tick => {
            out.u8(0)?;
            out.u32(0)
        }
        Given::Datagram(bytes) => {
            out.u8(1)?;
            out.u32(bytes.len() as u32)?;
            out.take(bytes)
        }
    }
}
