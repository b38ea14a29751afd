//! The line of what is told of a key.
ghost use Rattle.std.specs.Prelude.{◌≡◌, ◌++◌, codes, IfOk, string_bytes};
ghost use Rattle.cs_base.specs.Codes.{bytes_text};
ghost use Rattle.cs_tx_types.specs.State.{StateFits};
ghost use Rattle.cs_tx_value.specs.Object.{ObjectFits, object_encoding};
ghost use Rattle.cs_show.specs.Lines.{state_line};

use cs_base::{Memory, print_bytes};
use cs_tx_types::State;
use cs_tx_value::{Digest, Encoded, Object};
use std::alloc::Global;

/// The line of a state: of an object that is active its encoding, of one that is locked or used up
/// the session, of one that is read by sessions how many there are.
pub fn state_line(alloc: Global, state: &State) -> Result<String, Memory>
    requires { StateFits state.now }
    ensures { IfOk result (λ line. string_bytes line ≡ state_line state.now) }
{
    match state {
        State::Unknown => Ok(String::from_str(alloc, "unknown\n")?),
        State::Active(object) => active_line(alloc, object),
        State::Locked(_, session) => locked_line(alloc, session),
        State::Inactive(session) => inactive_line(alloc, session),
        State::Shared(_, readers) => Ok(format!(in alloc; "shared {}\n", readers.len())?),
    }
}

fn active_line(alloc: Global, object: &Object) -> Result<String, Memory>
    requires { ObjectFits object.now }
    ensures { IfOk result (λ line. string_bytes line
        ≡ codes "active " ++ (bytes_text (object_encoding object.now) ++ codes "\n")) }
{
    let bytes = object.to_bytes(alloc)?;
    let text = print_bytes(alloc, &bytes)?;
    Ok(format!(in alloc; "active {text}\n")?)
}

fn locked_line(alloc: Global, session: &Digest) -> Result<String, Memory>
    ensures { IfOk result (λ line. string_bytes line
        ≡ codes "locked " ++ (bytes_text session.now ++ codes "\n")) }
{
    let text = print_bytes(alloc, session.as_slice())?;
    Ok(format!(in alloc; "locked {text}\n")?)
}

fn inactive_line(alloc: Global, session: &Digest) -> Result<String, Memory>
    ensures { IfOk result (λ line. string_bytes line
        ≡ codes "inactive " ++ (bytes_text session.now ++ codes "\n")) }
{
    let text = print_bytes(alloc, session.as_slice())?;
    Ok(format!(in alloc; "inactive {text}\n")?)
}
