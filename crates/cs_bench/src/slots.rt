//! The members of one shard, which order entries with all messages delivered.
use cs_base::{Memory, Sequence};
use cs_check_rules::KEPT_SLOTS;
use cs_log::SlotOrder;
use cs_order::{May, Order, Outgoing, Proposed, Step};
use cs_order_rules::{Change, OrderMessage};
use std::alloc::Global;
use std::mem;

/// A message on its way.
#[derive(Drop)]
struct Letter {
    from: u16,
    to: u16,
    message: OrderMessage,
}

/// The members of a shard that say something, the first of it.
#[derive(Drop)]
pub struct Shard {
    orders: Vec<SlotOrder>,
    letters: Vec<Letter>,
    members: u16,
}

/// Chooses so many entries of 100 bytes among 3f+1 members: how many the first of them has. Behind
/// every 16th slot each cuts its log, as a node does.
pub fn run(alloc: Global, f: u32, count: u32) -> Result<u32, Memory> {
    let mut shard = Shard::new(alloc, f)?;
    for number in 0..count {
        shard.choose(alloc, number)?;
        if number % 16 == 15 {
            shard.cut();
        }
    }
    Ok(shard.chosen())
}

impl Shard {
    /// A shard of at most 16 members.
    fn new(alloc: Global, f: u32) -> Result<Shard, Memory> {
        let f = u16::try_from(f).unwrap_or(0).min(5);
        Shard::with_speakers(alloc, f, 3 * f + 1)
    }

    /// A shard of 3f+1 members, f at most 5, of which the first so many say something.
    pub fn with_speakers(alloc: Global, f: u16, speakers: u16) -> Result<Shard, Memory> {
        let f = f.min(5);
        let mut orders = Vec::new(alloc);
        for me in 0..speakers.min(3 * f + 1) {
            orders.push(SlotOrder::new(alloc, f, me)?)?;
        }
        Ok(Shard {
            orders,
            letters: Vec::new(alloc),
            members: 3 * f + 1,
        })
    }

    fn speakers(&self) -> u16 {
        u16::try_from(self.orders.len()).unwrap_or(1)
    }

    /// The order of a member.
    pub fn order(&mut self, me: u16) -> Option<&mut SlotOrder> {
        self.orders.get_mut(usize::from(me))
    }

    /// How many slots the first member has.
    pub fn chosen(&self) -> u32 {
        match self.orders.as_slice().first() {
            Some(order) => u32::try_from(order.open_slot()).unwrap_or(0),
            None => 0,
        }
    }

    /// The leader proposes the entry of a number, and all that follows comes about.
    pub fn choose(&mut self, alloc: Global, number: u32) -> Result<(), Memory> {
        let leader = number.checked_rem(u32::from(self.members)).unwrap_or(0);
        let me = u16::try_from(leader).unwrap_or(0);
        let mut out = Vec::new(alloc);
        if let Some(order) = self.orders.get_mut(usize::from(me)) {
            propose(alloc, order, number, &mut out)?;
        }
        self.post(alloc, me, out.as_slice())?;
        for _ in 0..8 {
            self.deliver_all(alloc)?;
        }
        Ok(())
    }

    /// Each member gives up the slots before its last ones.
    fn cut(&mut self) {
        for order in &mut self.orders {
            let open = order.open_slot();
            order.cut(open.saturating_sub(KEPT_SLOTS));
        }
    }

    /// Delivers all that is on its way.
    fn deliver_all(&mut self, alloc: Global) -> Result<(), Memory> {
        let letters = mem::replace(&mut self.letters, Vec::new(alloc));
        for letter in letters {
            self.deliver(alloc, letter)?;
        }
        Ok(())
    }

    fn deliver(&mut self, alloc: Global, letter: Letter) -> Result<(), Memory> {
        let me = letter.to;
        let mut out = Vec::new(alloc);
        if let Some(order) = self.orders.get_mut(usize::from(me)) {
            take(alloc, order, letter.from, letter.message, &mut out)?;
        }
        self.post(alloc, me, out.as_slice())
    }

    fn post(
        &mut self,
        alloc: Global,
        from: u16,
        out: &[Outgoing<OrderMessage>],
    ) -> Result<(), Memory> {
        for outgoing in out {
            self.post_one(alloc, from, outgoing)?;
        }
        Ok(())
    }

    fn post_one(
        &mut self,
        alloc: Global,
        from: u16,
        outgoing: &Outgoing<OrderMessage>,
    ) -> Result<(), Memory> {
        for to in 0..self.speakers() {
            if to != from {
                let message = copy(alloc, &outgoing.message)?;
                self.letters.push(Letter { from, to, message })?;
            }
        }
        Ok(())
    }
}

/// An entry whose digest tells its number.
fn entry(alloc: Global, number: u32) -> Result<Proposed, Memory> {
    let mut digest = [0; 32];
    let bytes = number.to_be_bytes();
    digest[0] = bytes[0];
    digest[1] = bytes[1];
    digest[2] = bytes[2];
    digest[3] = bytes[3];
    entry_of(alloc, digest)
}

/// An entry of 100 bytes, of which the first are its digest.
pub fn entry_of(alloc: Global, digest: [u8; 32]) -> Result<Proposed, Memory> {
    let mut bytes = Vec::new(alloc);
    bytes.extend_from_slice(&digest)?;
    bytes.extend_from_slice(&[0; 68])?;
    Ok(Proposed {
        digest,
        bytes: Sequence::from_vec(bytes),
    })
}

/// A member proposes the entry of a number, where it may, and does what follows.
fn propose(
    alloc: Global,
    order: &mut SlotOrder,
    number: u32,
    out: &mut Vec<Outgoing<OrderMessage>>,
) -> Result<(), Memory> {
    if let May::Free = order.may_propose(alloc)? {
        order.propose(alloc, entry(alloc, number)?, out)?;
    }
    turn(alloc, order, out)
}

/// A member takes a message, and does what follows.
pub fn take(
    alloc: Global,
    order: &mut SlotOrder,
    from: u16,
    message: OrderMessage,
    out: &mut Vec<Outgoing<OrderMessage>>,
) -> Result<(), Memory> {
    order.take(alloc, from, message)?;
    turn(alloc, order, out)
}

/// All that a member does at once.
fn turn(
    alloc: Global,
    order: &mut SlotOrder,
    out: &mut Vec<Outgoing<OrderMessage>>,
) -> Result<(), Memory> {
    for _ in 0..8 {
        if !act(alloc, order, out)? {
            break;
        }
    }
    Ok(())
}

/// One thing that the member may do. It is false where there is none.
fn act(
    alloc: Global,
    order: &mut SlotOrder,
    out: &mut Vec<Outgoing<OrderMessage>>,
) -> Result<bool, Memory> {
    match order.advance(alloc, out)? {
        Step::Chosen(_) | Step::Moved => return Ok(true),
        Step::Quiet => (),
    }
    if order.pending().is_none() {
        return Ok(false);
    }
    order.echo(alloc, out)?;
    Ok(true)
}

fn copy_change(alloc: Global, change: &Change) -> Result<Change, Memory> {
    let echoed = Vec::from_slice(alloc, change.echoed.as_slice())?;
    Ok(Change {
        prepared: change.prepared,
        echoed: Sequence::from_vec(echoed),
    })
}

fn copy(alloc: Global, message: &OrderMessage) -> Result<OrderMessage, Memory> {
    match message {
        OrderMessage::Propose { slot, view, entry } => Ok(OrderMessage::Propose {
            slot: *slot,
            view: *view,
            entry: entry.copy(alloc)?,
        }),
        OrderMessage::Echo { slot, view, digest } => Ok(OrderMessage::Echo {
            slot: *slot,
            view: *view,
            digest: *digest,
        }),
        OrderMessage::Confirm { slot, view, digest } => Ok(OrderMessage::Confirm {
            slot: *slot,
            view: *view,
            digest: *digest,
        }),
        OrderMessage::Change { slot, view, change } => Ok(OrderMessage::Change {
            slot: *slot,
            view: *view,
            change: copy_change(alloc, change)?,
        }),
        OrderMessage::Done { slot, entry } => Ok(OrderMessage::Done {
            slot: *slot,
            entry: entry.copy(alloc)?,
        }),
    }
}
