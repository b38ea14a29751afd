//! How looking a key up ends.
use cs_io::Text;

/// How looking a key up ends.
#[derive(Drop)]
pub enum Ending {
    /// f+1 nodes told a state of which this is the line.
    Tells(Text),
    /// As many inputs were taken as were to be taken, or the link has nothing left.
    Open,
    /// Too many receives in a row failed.
    LinkFault,
    /// There was not enough memory.
    Memory,
}
