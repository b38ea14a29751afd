//! The sessions of a round, and the shards that they concern.
ghost use Rattle.std.specs.Prelude.{◌≡◌, ◌<◌, ◌≤◌, ◌^◌, ◌∷◌, [], not, filter, IfOk};
ghost use Rattle.cs_tx_value.specs.Object.{ObjectFits};
ghost use Rattle.cs_tx.specs.Digest.{name_of_genesis};
ghost use Rattle.cs_tx.specs.Token.{token_id};
ghost use Rattle.cs_tx.specs.Uses.{is_among};
ghost use Rattle.cs_gen.specs.Coins.{coin};
ghost use Rattle.cs_gen.specs.Rounds.{layout, transfer, split_tx, session, concerned_by, wanting_dummies};

use crate::coins::coin;
use cs_base::{Config, Key, Memory, Sequence, shard_of};
use cs_tx::{Digest, Name, Object, Session, Trace, Tx, concerned, genesis_key};
use std::alloc::Global;

// How each generated schedule is laid out.
pub(crate) fn layout() -> Config
    ensures { result ≡ layout }
{
    Config {
        shards: 3,
        f: 1,
        dummies: 8,
        version: 1,
    }
}

// The name of a coin that stands at a place of the genesis objects.
fn name_at(alloc: Global, place: u32, coin: &Object) -> Result<Digest, Memory>
    requires { ObjectFits coin.now }
    ensures { IfOk result (λ name. name ≡ name_of_genesis place coin.now) }
{
    match genesis_key(alloc, place, coin)? {
        Key::Object(name) => Ok(name),
        Key::Dummy(..) => unreachable!(),
    }
}

// One coin becomes two of these worths.
fn transfer(
    alloc: Global,
    token: &Digest,
    input: (Digest, Object),
    first: u64,
    second: u64,
) -> Result<Tx, Memory>
    requires token { token.now ≡ token_id }
    requires first { first < 2 ^ 63 }
    requires second { second < 2 ^ 63 }
    ensures { IfOk result (λ tx. tx ≡ transfer input first second) }
{
    let mut inputs = Sequence::new(alloc);
    inputs.push(input)?;
    let mut outputs = Sequence::new(alloc);
    outputs.push(coin(alloc, token, first)?)?;
    outputs.push(coin(alloc, token, second)?)?;
    let mut traces = Sequence::new(alloc);
    traces.push(Trace {
        contract: *token,
        method: Name::from_vec(Vec::from_slice(alloc, b"transfer")?),
        inputs,
        references: Sequence::new(alloc),
        parameters: Sequence::new(alloc),
        outputs,
        returns: Sequence::new(alloc),
        deps: Sequence::new(alloc),
    })?;
    Ok(Tx { traces })
}

// Those of the shards in which this input is not.
fn without(alloc: Global, input: &Digest, shards: &[u16]) -> Result<Sequence<u16>, Memory>
    ensures { IfOk result (λ others.
        others ≡ filter (λ shard. not (is_among layout shard (input.now ∷ []))) shards.now) }
{
    let home = shard_of(&layout(), &Key::Object(*input));
    let mut others = Sequence::new(alloc);
    for shard in shards {
        if *shard != home {
            others.push(*shard)?;
        }
    }
    Ok(others)
}

// A session, and the shards that it concerns, of which some want a dummy.
#[derive(Drop)]
pub(crate) struct Offer {
    pub(crate) session: Session,
    pub(crate) shards: Sequence<u16>,
    pub(crate) wanting: Sequence<u16>,
}

// The session in which the coin of a place is split, still without its dummies.
pub(crate) fn make_offer(
    alloc: Global,
    token: &Digest,
    place: u32,
    worth: u64,
    share: u64,
) -> Result<Offer, Memory>
    requires token { token.now ≡ token_id }
    requires worth { worth < 2 ^ 63 }
    requires share { share ≤ worth }
    ensures { IfOk result (λ offer. offer ≡ record {
      session = session (split_tx place worth share) place [];
      shards = concerned_by (split_tx place worth share);
      wanting = wanting_dummies (split_tx place worth share);
    }) }
{
    let spent = coin(alloc, token, worth)?;
    let name = name_at(alloc, place, &spent)?;
    let session = Session {
        tx: transfer(alloc, token, (name, spent), share, worth - share)?,
        number: u64::from(place),
        dummies: Sequence::new(alloc),
    };
    let shards = concerned(alloc, &session, &layout())?;
    Ok(Offer {
        session,
        wanting: without(alloc, &name, &shards)?,
        shards: Sequence::from_vec(shards),
    })
}
