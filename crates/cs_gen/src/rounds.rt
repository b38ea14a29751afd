//! The rounds of a schedule.
ghost use Rattle.std.specs.Prelude.{◌≡◌, ◌+◌, ◌*◌, ◌/◌, ◌%◌, ◌<◌, ◌≤◌, ◌^◌, ◌==◌, ◌++◌, Some, length, map, IfOk, OnOk, if◌then◌else◌};
ghost use Rattle.std.specs.List.{All};
ghost use Rattle.cs_base.specs.NodeId.{members_below};
ghost use Rattle.cs_tx_types.specs.Session.{SessionFits};
ghost use Rattle.cs_tx.specs.Token.{token_id};
ghost use Rattle.cs_sched.specs.declared.schedule.Event.TheVariants.{Say};
ghost use Rattle.cs_gen.specs.Draws.{next_state};
ghost use Rattle.cs_gen.specs.Rounds.{client, submitted_to, round_with, events_below};

use crate::draws::Draws;
use crate::limits::MOST_SIZE;
use crate::serials::Serials;
use crate::sessions::{Offer, make_offer};
use cs_base::{CLIENT_SHARD, Memory, NodeId, Sequence};
use cs_sched::Event;
use cs_tx::{Digest, Encoded, Session};
use cs_wire_message::kinds::SUBMIT;
use std::alloc::Global;

// How many nodes a shard has.
const MEMBERS: u16 = 4;

// The client that submits all sessions.
const CLIENT: NodeId = NodeId {
    shard: CLIENT_SHARD,
    index: 0,
};

// Says the same to each node of a shard.
fn say_in(alloc: Global, shard: u16, body: &[u8], events: &mut Vec<Event>) -> Result<(), Memory>
    ensures { OnOk result (events.new.items ≡ events.old.items
        ++ map (λ node. Say client node 1 body.now) (members_below shard 4)) }
{
    for index in 0..MEMBERS {
        events.push(Event::Say {
            from: CLIENT,
            to: NodeId { shard, index },
            kind: SUBMIT,
            body: Sequence::from_vec(Vec::from_slice(alloc, body)?),
        })?;
    }
    Ok(())
}

// Submits a session to every node of these shards.
fn submit(
    alloc: Global,
    session: &Session,
    shards: &[u16],
    events: &mut Vec<Event>,
) -> Result<(), Memory>
    requires { SessionFits session.now }
    ensures { OnOk result (events.new.items
        ≡ events.old.items ++ submitted_to session.now shards.now) }
{
    let body = session.to_bytes(alloc)?;
    for shard in shards {
        say_in(alloc, *shard, &body, events)?;
    }
    Ok(())
}

// Submits a session, and it again under a second number, if there is one. Then datagrams come.
fn add_round(
    alloc: Global,
    mut offer: Offer,
    second: Option<u64>,
    events: &mut Vec<Event>,
) -> Result<(), Memory>
    requires { SessionFits offer.session }
    ensures { OnOk result (events.new.items
        ≡ events.old.items ++ round_with offer.session offer.shards second) }
{
    submit(alloc, &offer.session, offer.shards.as_slice(), events)?;
    if let Some(number) = second {
        offer.session.number = number;
        submit(alloc, &offer.session, offer.shards.as_slice(), events)?;
    }
    events.push(Event::Drain { times: 100_000 })?;
    Ok(())
}

// What is drawn for a round: how much of the coin is split off, and whether a second session is
// said.
#[derive(Drop)]
struct Drawn {
    share: u64,
    again: bool,
}

fn draw_round(draws: &mut Draws, worth: u64) -> Drawn
    requires { worth < 2 ^ 63 }
    ensures share { result.share ≡ next_state draws.old.state / 2 ^ 33 % (worth + 1) }
    ensures again { result.again
        ≡ (next_state (next_state draws.old.state) / 2 ^ 33 % 4 == 0) }
    ensures state { draws.new.state ≡ next_state (next_state draws.old.state) }
{
    let share = draws.draw() % (worth + 1);
    let again = draws.draw() % 4 == 0;
    Drawn { share, again }
}

// The events of all rounds, one for each coin of these worths.
pub(crate) fn draw_events(
    alloc: Global,
    token: &Digest,
    draws: &mut Draws,
    worths: &[u64],
) -> Result<Vec<Event>, Memory>
    requires token { token.now ≡ token_id }
    requires few { length worths.now ≤ MOST_SIZE }
    requires worths { All (λ worth. worth < 2 ^ 63) worths.now }
    ensures { IfOk result (λ events.
        events.items ≡ events_below draws.old.state worths.now (length worths.now)) }
{
    let mut serials = Serials::new();
    let mut events = Vec::new(alloc);
    for round in 0..worths.len() {
        let drawn = draw_round(draws, worths[round]);
        let mut offer = make_offer(alloc, token, round as u32, worths[round], drawn.share)?;
        offer.session.dummies = serials.dummies(alloc, offer.wanting.as_slice())?;
        serials.use_up(offer.wanting.as_slice());
        let second = drawn.again.then_some((worths.len() + round) as u64);
        add_round(alloc, offer, second, &mut events)?;
    }
    Ok(events)
}
