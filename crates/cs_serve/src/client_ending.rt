//! How a client over a link ends.
use cs_client::Known;
use cs_proc::ProcError;

/// How the run of a client ends.
#[derive(Clone, Copy, Debug, PartialEq, Eq)]
pub enum Ending {
    /// It knows this. Where it is nothing, it took as many inputs as it was to take, or the link has
    /// nothing left.
    Knows(Known),
    /// Its method isn't run, for this cause.
    Refused(ProcError),
    /// Too many receives in a row failed.
    LinkFault,
    /// There was not enough memory.
    Memory,
}
