//! What is wrong with a call.
ghost use Rattle.std.specs.Prelude.{◌≡◌};
ghost use Rattle.cs_judge.specs.Faults.{fault_line};

/// What is wrong with a call, whatever its objects are, in the order in which it is looked for.
#[derive(Clone, Copy, Debug, PartialEq, Eq)]
pub enum CallFault {
    /// No contract has the method.
    Method,
    /// The arguments aren't those that the method takes, or there are fewer objects than it does.
    Args,
    /// It names no object that could be used up, so it makes no session.
    Inputs,
}

/// What a client prints that is to make such a call.
pub fn fault_line(fault: CallFault) -> &'static [u8]
    ensures { result.now ≡ fault_line fault }
{
    match fault {
        CallFault::Method => b"refused call method\n",
        CallFault::Args => b"refused call args\n",
        CallFault::Inputs => b"refused call inputs\n",
    }
}
