//! How the run of a client ends whose call is made again.
use cs_io::Text;
use cs_serve::Ending;
use cs_tx_value::Digest;

/// How the run of a client ends whose call is made again after it was aborted.
#[derive(Drop)]
pub enum TryEnding {
    /// So the last try ends.
    Ended(Ending),
    /// It knows that its session is accepted, of which the lines are printed.
    Told(Digest),
    /// It knows nothing, and these lines say so, and what it waits for.
    Waits(Text),
    /// A line could not be written.
    WriteFault,
}
