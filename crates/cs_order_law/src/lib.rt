//! The law of the order among 3f+1 members:
//! no two honest members choose different entries for one slot.
#![tactic(auto)]

ghost use Rattle.std.specs.Prelude.{◌≡◌, ℕ, ◌+◌, ◌*◌, ◌<◌, ◌≤◌, ◌^◌, true, List, None, is_some};
ghost use Rattle.cs_order.specs.declared.proposed.Proposed.{Proposed};
ghost use Rattle.cs_order.specs.Deeds.{Deed, Member, did};
ghost use Rattle.cs_order.specs.Limits.{last_slot};
ghost use Rattle.cs_order.specs.Runs.{KeepsRules};
ghost use Rattle.cs_order.specs.Law.{Law, Undisturbed, ComesToRest, Holds};
ghost use Rattle.cs_order_rules.specs.Slot.{Seen, votes, with_digest, dones, chosen, to_confirm};
ghost use Rattle.cs_order_rules.specs.SlotMachine.{slot_machine, slot_rest};
ghost use Rattle.cs_order_rules.specs.declared.message.OrderMessage.{OrderMessage};
ghost use Rattle.cs_order_law.specs.Terms.{IsRule};

/// The rules have the laws of an order, for every number of liars.
///
/// It does nothing: its contract is a theorem.
#[tactic(auto, using(crate::specs::laws::SlotLaw::slot_law, crate::specs::laws::SlotLaw::slot_undisturbed, crate::specs::laws::Starting::slot_comes_to_rest, crate::specs::laws::Held::slot_holds))]
pub fn rules_are_lawful()
    ensures law { Law slot_machine }
    ensures undisturbed { Undisturbed slot_machine }
    ensures comes_to_rest { ComesToRest slot_machine slot_rest }
    ensures holds { Holds slot_machine }
{}

/// What the rules leave undone could not be done, and what they do comes to an end.
///
/// It does nothing: its contract is a theorem.
#[tactic(auto, using(crate::specs::laws::Exact::none_chosen, crate::specs::laws::Exact::none_done, crate::specs::laws::Exact::none_to_confirm, crate::specs::laws::Rest::rest_falls, crate::specs::laws::Rest::member_bounded))]
pub fn nothing_is_missed()
    // Where nothing is chosen, no entry is known of a digest that 2f+1 members confirmed in a view.
    ensures chosen { (s : Seen) → s.n < last_slot → chosen s ≡ None →
        (view : ℕ) (digest : List ℕ) → view < s.views →
        2 * s.f + 1 ≤ votes s.f (s.confirm view) digest →
        ((w : ℕ) → w < s.views → with_digest digest (s.proposal w) ≡ None)
        × ((m : ℕ) → m < 3 * s.f + 1 → with_digest digest (s.done m) ≡ None) }
    // And no f+1 members are done with one entry.
    ensures done { (s : Seen) → s.n < last_slot → chosen s ≡ None →
        (entry : Proposed) → dones s entry ≤ s.f }
    // Where nothing is to be confirmed, a digest that 2f+1 members echoed is confirmed already.
    ensures confirmed { (s : Seen) → to_confirm s ≡ None →
        (digest : List ℕ) → 2 * s.f + 1 ≤ votes s.f (s.echo s.view) digest →
        is_some (s.confirm s.view s.me) ≡ true }
    // Each deed of the rules lowers a number.
    ensures falls { (h : Member OrderMessage) (act : Deed OrderMessage) →
        KeepsRules slot_machine h act → IsRule act →
        slot_rest (did act h) < slot_rest h }
    ensures bounded { (h : Member OrderMessage) → slot_rest h < 2 ^ 80 }
{}
