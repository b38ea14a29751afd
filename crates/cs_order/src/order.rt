//! The trait of an order.
ghost use Rattle.std.specs.Prelude.{◌≡◌, ◌≢◌, ℕ, ◌*◌, ◌≤◌, ◌<◌, ◌^◌, true, [], IfOk, OnOk, OnErr, IsSome, length, Option, option_copied};
ghost use Rattle.cs_order.specs.declared.proposed.Proposed.{Proposed};
ghost use Rattle.cs_order.specs.declared.answers.May.{May};
ghost use Rattle.cs_order.specs.Deeds.{Member, Machine, chosen_in, entry_of_slot};
ghost use Rattle.cs_order.specs.Calls.{Proposable, TakesIn, Advances, Echoes, Proposes, Ticks, Resends, Replies, Cuts, Lowers};
ghost use Rattle.cs_order.specs.Limits.{last_slot};
ghost use Rattle.cs_order.specs.Law.{Law, Undisturbed, ComesToRest, Holds, IsPrefix};

use crate::answers::{May, Outgoing, Step, Took};
use crate::proposed::Proposed;
use cs_base::Memory;
use std::alloc::Global;

/// The agreement of one shard, as one member sees it.
///
/// What a call gives to `out` stands at its end, for the caller to send. After a want of memory
/// the member makes no further call, and what the call put to `out` is not sent.
pub trait Order: Drop {
    type Message: Drop;

    /// What an order does, by what its member has done.
    ghost rules: { Machine Self.Message };

    /// The value is where these deeds have led the member.
    ghost stands: { Self → Member Self.Message → Type 0 };

    /// How many liars the shard may have. It has `3 * f + 1` members.
    ghost f: { Self → ℕ };

    /// The member's index.
    ghost me: { Self → ℕ };

    /// A member that has done nothing.
    ghost at_start: { Self → Type 0 };

    /// What `pending` answers.
    ghost awaits: { Self → Option Proposed };

    /// What `may_propose` answers.
    ghost allows: { Self → May };

    /// How many more of a caller's turns there may be.
    ghost rest: { Self → ℕ };

    /// The same, by what the member has done.
    ghost left: { Member Self.Message → ℕ };

    /// The first slot that is not chosen.
    fn open_slot(&self) -> u64
        ensures slot { (h : Member Self.Message) → stands self.now h →
            result ≡ length (chosen_in h.deeds) }
        ensures bound { result ≤ last_slot };

    /// The view that the member is in.
    fn view(&self) -> u16
        ensures { (h : Member Self.Message) → stands self.now h → result ≡ rules.view h };

    /// Takes a message of another member.
    fn take(&mut self, alloc: Global, from: u16, message: Self::Message) -> Result<Took, Memory>
        ensures call { (h : Member Self.Message) → stands self.old h →
            from ≤ 3 * f self.old → from ≢ me self.old → rules.proper message ≡ true →
            IfOk result (λ took. TakesIn rules h from message took (stands self.new)) }
        ensures same { OnOk result ((f self.new ≡ f self.old) × (me self.new ≡ me self.old)) };

    /// The entry that is chosen in a slot, unless it was cut.
    fn entry(&self, slot: u64) -> Option<&Proposed>
        ensures { (h : Member Self.Message) → stands self.now h →
            option_copied result ≡ entry_of_slot h.deeds slot };

    /// Chooses an entry, enters a view or confirms, whichever applies first.
    fn advance(
        &mut self,
        alloc: Global,
        out: &mut Vec<Outgoing<Self::Message>>,
    ) -> Result<Step, Memory>
        ensures call { (h : Member Self.Message) → stands self.old h →
            IfOk result (λ step. Advances rules h step out.old.items out.new.items
            (stands self.new)) }
        ensures falls { IfOk result (λ step. Lowers (rest self.old) (rest self.new) step) }
        ensures same { OnOk result ((f self.new ≡ f self.old) × (me self.new ≡ me self.old)) };

    /// The proposal that the member may echo, if it admits the entry.
    fn pending(&self) -> Option<&Proposed>
        ensures now { option_copied result ≡ awaits self.now }
        ensures rule { (h : Member Self.Message) → stands self.now h →
            awaits self.now ≡ rules.pending h };

    /// Echoes the pending proposal.
    fn echo(&mut self, alloc: Global, out: &mut Vec<Outgoing<Self::Message>>) -> Result<(), Memory>
        ensures call { IsSome (awaits self.old) → (h : Member Self.Message) → stands self.old h →
            OnOk result (Echoes rules h out.old.items out.new.items (stands self.new)) }
        ensures falls { IsSome (awaits self.old) → OnOk result (rest self.new < rest self.old) }
        ensures same { OnOk result ((f self.new ≡ f self.old) × (me self.new ≡ me self.old)) };

    /// What the member may propose, if it admits the entry.
    fn may_propose(&self, alloc: Global) -> Result<May, Memory>
        ensures now { IfOk result (λ may. may ≡ allows self.now) }
        ensures rule { (h : Member Self.Message) → stands self.now h →
            allows self.now ≡ rules.may_propose h };

    /// Proposes an entry.
    fn propose(
        &mut self,
        alloc: Global,
        entry: Proposed,
        out: &mut Vec<Outgoing<Self::Message>>,
    ) -> Result<(), Memory>
        requires { Proposable (allows self.old) entry }
        ensures call { (h : Member Self.Message) → stands self.old h →
            OnOk result (Proposes rules h entry out.old.items out.new.items (stands self.new)) }
        ensures falls { OnOk result (rest self.new < rest self.old) }
        ensures same { OnOk result ((f self.new ≡ f self.old) × (me self.new ≡ me self.old)) };

    /// Sends the messages of the open slot and view again.
    fn resend(&self, alloc: Global, out: &mut Vec<Outgoing<Self::Message>>) -> Result<(), Memory>
        ensures call { (h : Member Self.Message) → stands self.now h →
            OnOk result (Resends rules h out.old.items out.new.items (stands self.now)) }
        ensures begins { OnErr result (IsPrefix out.old.items out.new.items) };

    /// Counts a tick, at which the next view may be entered.
    /// An entry that is due makes the member wait.
    fn tick(
        &mut self,
        alloc: Global,
        due: bool,
        out: &mut Vec<Outgoing<Self::Message>>,
    ) -> Result<(), Memory>
        ensures call { (h : Member Self.Message) → stands self.old h →
            OnOk result (Ticks rules h due out.old.items out.new.items (stands self.new)) }
        ensures same { OnOk result ((f self.new ≡ f self.old) × (me self.new ≡ me self.old)) };

    /// Answers another member that asks for a slot, and says whether there is an answer.
    fn reply(
        &self,
        alloc: Global,
        slot: u64,
        to: u16,
        out: &mut Vec<Outgoing<Self::Message>>,
    ) -> Result<bool, Memory>
        ensures call { (h : Member Self.Message) → stands self.now h →
            to ≤ 3 * f self.now → to ≢ me self.now →
            IfOk result (λ answer. Replies rules h slot to answer out.old.items out.new.items
            (stands self.now)) }
        ensures begins { OnErr result (IsPrefix out.old.items out.new.items) };

    /// Gives up the entries of the slots below this one, and frees their memory.
    fn cut(&mut self, slot: u64)
        requires { (h : Member Self.Message) → stands self.old h →
            slot ≤ length (chosen_in h.deeds) }
        ensures call { (h : Member Self.Message) → stands self.old h →
            Cuts h slot (stands self.new) }
        ensures rest { rest self.new ≤ rest self.old }
        ensures same { (f self.new ≡ f self.old) × (me self.new ≡ me self.old) };

    /// In every run of one shard with few enough liars, the law holds.
    ghost law: { Law rules };

    /// Messages sent again, and cuts, change no step.
    ghost undisturbed: { Undisturbed rules };

    /// What a member has to do comes to an end.
    ghost comes_to_rest: { ComesToRest rules left };

    /// What a member gives was handed in, and the messages that it hands out are proper.
    ghost holds: { Holds rules };

    /// A member at its start stands for no deeds.
    ghost begins: { (s : Self) → at_start s →
        stands s (record { f = f s; me = me s; deeds = [] }) };

    /// A value stands for deeds of its own member alone.
    ghost belongs: { (s : Self) (h : Member Self.Message) → stands s h →
        (h.f ≡ f s) × (h.me ≡ me s) };

    /// A caller's turns come to an end.
    ghost bounded: { (s : Self) → rest s < 2 ^ 80 };
}
