//! All limits, each with the reason for its number.

/// The most shards of a configuration: a session that concerns them all has an input in one of
/// them, and so at most 15 dummies.
pub const MOST_SHARDS: u16 = 16;

/// The most liars that a shard of a configuration stands, with 3f+1 nodes: a mask of its 16 members
/// has 16 bits.
pub const MOST_LIARS: u16 = 5;

/// The most dummies with which a shard begins: so many sessions may hold one at a time, and each
/// use makes the next.
pub const MOST_DUMMIES: u16 = 64;

/// The last version: entries of one action came first, batches second.
pub const LAST_VERSION: u8 = 2;

/// No view is this or above: each of 16 members leads 64 of them, and a wait doubles no more after
/// the tenth.
pub const VIEW_BOUND: u16 = 1_024;

/// The last view of a slot, the one below `VIEW_BOUND`.
pub const LAST_VIEW: u16 = 1_023;

/// The last slot, 2^62 - 1, which is never chosen: sums of slots and windows stay far below 2^64.
pub const LAST_SLOT: u64 = 4_611_686_018_427_387_903;

/// How far above the open slot a message is taken: a member that lags by less than 16 slots loses
/// nothing.
pub const SLOTS_AHEAD: u64 = 15;

/// The most digests that a member echoes in one slot: what a change lists stays below a datagram.
pub const MOST_ECHOED: u8 = 16;

/// The bytes of a datagram without its body: the head of 17, and the tag of 32.
pub const LEAST_DATAGRAM: usize = 49;

/// The most bytes of a datagram: half of 64 KiB, below what UDP carries, and above any message's.
pub const MOST_DATAGRAM: usize = 32_768;

/// The most bytes of a body: those of a datagram less the 49 of its head and tag.
pub const MOST_BODY: usize = 32_719;

/// The most bytes of an object: half of a transaction's.
pub const MOST_OBJECT: usize = 4_096;

/// The most bytes of a transaction: the proposal of a session of one fits in a datagram with room
/// to spare.
pub const MOST_TX: usize = 8_192;

/// The most bytes of a session: a transaction, a number of 8, a count of 1, and 15 dummies of 10
/// each.
pub const MOST_SESSION: usize = 8_351;

/// The most bytes of an entry of one action: its kind, a vote, and a session.
pub const MOST_ENTRY: usize = 8_353;

/// The most actions of a batch: one agreement serves 32 sessions, and a leaf's place has few bits.
pub const MOST_ACTIONS: u8 = 32;

/// The most bytes of a batch: half of a datagram, so that a proposal of one fits with room to spare,
/// and an action of any session fits in a batch.
pub const MOST_BATCH: usize = 16_384;

/// A record with this many places in its book takes no new session: its memory stays bounded.
pub const BOOK_PLACES: u16 = 1_024;

/// The most places of a book: the one above `BOOK_PLACES` is kept for the session that holds the
/// lock, if it aborts.
pub const MOST_PLACES: u16 = 1_025;

/// The most sessions that read one object at a time: a record with them all still grows by 2 KiB
/// alone, and what is told of it stays far below a datagram.
pub const MOST_READERS: u8 = 64;

/// The most sessions that wait in a pool: at 8,351 bytes each they take 34 MB.
pub const MOST_WAITING: usize = 4_096;

/// The most genesis objects of a schedule: a place among them has 16 bits.
pub const MOST_GENESIS: usize = 65_536;

/// The most bytes of a schedule: 16 MiB, which are read whole before a line is judged.
pub const MOST_SCHEDULE: usize = 16_777_216;

/// The most events of a replay: each delivery of a drain is one, so a short text can ask for many.
pub const MOST_EVENTS: u64 = 1_000_000;

/// The most bytes that the nodes of a replay send: 256 MiB, which are kept so that each datagram
/// can be delivered again.
pub const MOST_SENT: u64 = 268_435_456;
