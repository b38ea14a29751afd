//! Numbers of places.
ghost use Rattle.std.specs.Prelude.{◌≡◌, ◌+◌, IfOk};

use cs_base::Memory;

/// One place more. More than can be counted are more than there is memory for.
pub fn one_more(places: usize) -> Result<usize, Memory>
    ensures { IfOk result (λ n. n ≡ places + 1) }
{
    places.checked_add(1).ok_or(Memory)
}
