//! Coins of `token`.
ghost use Rattle.std.specs.Prelude.{◌≡◌, ◌<◌, ◌^◌, map, IfOk, OnOk};
ghost use Rattle.std.specs.List.{All};
ghost use Rattle.cs_tx.specs.Token.{token_id};
ghost use Rattle.cs_gen.specs.Coins.{coin, worths_below};
ghost use Rattle.cs_gen.specs.Draws.{state_after};

use crate::draws::Draws;
use cs_base::{Memory, Sequence};
use cs_tx::{Digest, Name, Object, Value};
use std::alloc::Global;

pub(crate) fn coin(alloc: Global, token: &Digest, worth: u64) -> Result<Object, Memory>
    requires token { token.now ≡ token_id }
    requires worth { worth < 2 ^ 63 }
    ensures { IfOk result (λ made. made ≡ coin worth) }
{
    let mut values = Sequence::new(alloc);
    values.push(Value::Int(worth as i64))?;
    Ok(Object {
        contract: *token,
        type_name: Name::from_vec(Vec::from_slice(alloc, b"coin")?),
        values,
    })
}

// What each of so many coins is worth: from 100 to 999.
pub(crate) fn draw_worths(alloc: Global, draws: &mut Draws, count: u32) -> Result<Vec<u64>, Memory>
    ensures worths { IfOk result (λ worths. worths.items ≡ worths_below draws.old.state count) }
    ensures state { OnOk result (draws.new.state ≡ state_after draws.old.state count) }
{
    let mut worths = Vec::new(alloc);
    for _ in 0..count {
        worths.push(100 + draws.draw() % 900)?;
    }
    Ok(worths)
}

// A coin of each worth.
pub(crate) fn coins(
    alloc: Global,
    token: &Digest,
    worths: &[u64],
) -> Result<Sequence<Object>, Memory>
    requires token { token.now ≡ token_id }
    requires worths { All (λ worth. worth < 2 ^ 63) worths.now }
    ensures { IfOk result (λ made. made ≡ map coin worths.now) }
{
    let mut made = Sequence::new(alloc);
    for worth in worths {
        made.push(coin(alloc, token, *worth)?)?;
    }
    Ok(made)
}
