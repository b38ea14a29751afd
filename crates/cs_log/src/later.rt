//! The slots above the open one, as far as messages of them were taken.
ghost use Rattle.std.specs.Prelude.{◌≡◌, ℕ, ◌+◌, ◌*◌, ◌^◌, ◌≤◌, ◌<◌, Some, length, slice_get, slice_set, IfOk, OnOk};
ghost use Rattle.cs_order.specs.Limits.{view_bound};
ghost use Rattle.cs_order_rules.specs.Facts.{Sight};
ghost use Rattle.cs_order_open.specs.Shows.{KeptOpenSlot, ShowsSlot, TakesFirst};
ghost use Rattle.cs_log.specs.Later.{ShowLater, MayTake};

use cs_base::Memory;
use cs_order_open::OpenSlot;
use cs_order_rules::OrderMessage;
use std::alloc::{AllocError, Global};

/// Has at least so many slots, from the first one on.
pub fn extend(
    alloc: Global,
    later: &mut Vec<OpenSlot>,
    f: u16,
    me: u16,
    first: u64,
    count: usize,
) -> Result<(), Memory>
    requires few { f ≤ 5 }
    requires member { me ≤ 3 * f }
    requires small { first + count < 2 ^ 63 }
    ensures shown { (s : Sight) → s.f ≡ f → s.me ≡ me → s.views ≡ view_bound →
        ShowLater later.old.items s first → OnOk result (ShowLater later.new.items s first) }
    ensures enough { OnOk result (count ≤ length later.new.items) }
{
    for place in later.len()..count {
        let slot = OpenSlot::new(alloc, f, first + place as u64, me)?;
        if let Err(refused) = later.push(slot) {
            return Err(AllocError::from(refused).into());
        }
    }
    Ok(())
}

/// The slot at a place takes a message of another member. It is false exactly for a repeat.
pub fn take_at(
    later: &mut Vec<OpenSlot>,
    place: usize,
    from: u16,
    message: OrderMessage,
) -> Result<bool, Memory>
    requires within { place < length later.old.items }
    requires may { (k : KeptOpenSlot) → slice_get later.old.items place ≡ Some k →
        MayTake k from message }
    ensures { (k : KeptOpenSlot) → slice_get later.old.items place ≡ Some k →
        IfOk result (λ fresh. (new : KeptOpenSlot)
        × (later.new.items ≡ slice_set later.old.items place new)
        × ((s : Sight) (n view : ℕ) → ShowsSlot k s n view →
        TakesFirst fresh new s n view from message)) }
{
    let slot = &mut later[place];
    slot.take(from, message)
}

/// Takes the first of the slots out, or makes it, where there is none.
pub fn open_first(
    alloc: Global,
    later: &mut Vec<OpenSlot>,
    f: u16,
    n: u64,
    me: u16,
) -> Result<OpenSlot, Memory>
    requires few { f ≤ 5 }
    requires member { me ≤ 3 * f }
    ensures { (s : Sight) → s.f ≡ f → s.me ≡ me → s.views ≡ view_bound →
        ShowLater later.old.items s n →
        IfOk result (λ slot. ShowsSlot slot s n 0 × ShowLater later.new.items s (n + 1)) }
{
    if later.is_empty() {
        return OpenSlot::new(alloc, f, n, me);
    }
    Ok(later.remove(0))
}
