//! What each member of a shard said in a view.
ghost use Rattle.std.specs.Prelude.{◌≡◌, ℕ, ◌==◌, ◌+◌, ◌*◌, ◌≤◌, ◌<◌, if◌then◌else◌, None, Some};
ghost use Rattle.cs_order_rules.specs.Slot.{is_digest, votes, if_enough, quorum};
ghost use Rattle.cs_slot.specs.Kept.{said_in};

/// The digest that each member said, of the 16 that there may be.
pub type Row = [Option<[u8; 32]>; 16];

/// Nobody said anything.
pub fn empty() -> Row
    ensures { (member : ℕ) → said_in result member ≡ None }
{
    [None; 16]
}

/// What a member said.
pub fn said(row: &Row, member: u16) -> Option<[u8; 32]>
    ensures { result ≡ said_in row.now member }
{
    match row.get(usize::from(member)) {
        Some(said) => *said,
        None => None,
    }
}

/// The row after a member said a digest.
pub fn with_said(row: Row, member: u16, digest: [u8; 32]) -> Row
    requires { member < 16 }
    ensures { (other : ℕ) →
        said_in result other ≡ (if member == other then Some digest else said_in row other) }
{
    let mut row = row;
    row[usize::from(member)] = Some(digest);
    row
}

/// The digest that 2f+1 members said.
pub fn agreed(row: &Row, f: u16) -> Option<[u8; 32]>
    requires { f ≤ 5 }
    ensures { result ≡ quorum f (said_in row.now) }
{
    for member in 0..3 * f + 1 {
        if let Some(digest) = digest_if_enough(row, f, member) {
            return Some(digest);
        }
    }
    None
}

/// What a member said, where 2f+1 members said it.
fn digest_if_enough(row: &Row, f: u16, member: u16) -> Option<[u8; 32]>
    requires { f ≤ 5 }
    ensures { result ≡ if_enough f (said_in row.now) (said_in row.now member) }
{
    let digest = said(row, member)?;
    if count(row, f, &digest) > 2 * f {
        Some(digest)
    } else {
        None
    }
}

/// How many members said a digest.
fn count(row: &Row, f: u16, digest: &[u8; 32]) -> u16
    requires { f ≤ 5 }
    ensures { result ≡ votes f (said_in row.now) digest.now }
{
    let mut count = 0;
    for member in 0..3 * f + 1 {
        count += u16::from(says(row, member, digest));
    }
    count
}

fn says(row: &Row, member: u16, digest: &[u8; 32]) -> bool
    ensures { result ≡ is_digest digest.now (said_in row.now member) }
{
    match said(row, member) {
        Some(said) => said == *digest,
        None => false,
    }
}
