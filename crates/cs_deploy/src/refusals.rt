//! The line of a method that isn't run.
ghost use Rattle.std.specs.Prelude.{◌≡◌, ◌++◌, codes, string_bytes, IfOk};
ghost use Rattle.cs_deploy.specs.Client.{cause_text};

use cs_base::Memory;
use cs_proc::ProcError;
use std::alloc::Global;

// The word of a cause, which want of memory has none of.
fn cause_word(cause: ProcError) -> Result<&'static str, Memory>
    ensures { IfOk result (λ word. word.now ≡ cause_text cause) }
{
    match cause {
        ProcError::NoMethod => Ok("method"),
        ProcError::BadArgs => Ok("args"),
        ProcError::Trap(_) => Ok("trap"),
        ProcError::TooLarge => Ok("large"),
        ProcError::CheckerNo(_) => Ok("checker"),
        ProcError::Memory => Err(Memory),
    }
}

/// The line of a method that isn't run for this cause.
pub fn refusal_line(alloc: Global, cause: ProcError) -> Result<String, Memory>
    ensures { IfOk result (λ line.
        string_bytes line ≡ codes "refused call " ++ (cause_text cause ++ codes "\n")) }
{
    let word = cause_word(cause)?;
    Ok(format!(in alloc; "refused call {word}\n")?)
}
