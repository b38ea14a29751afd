//! The prepared pairs of changes.
ghost use Rattle.std.specs.Prelude.{◌≡◌, ℕ, List, ◌++◌, ◌∷◌, IfOk, Some};
ghost use Rattle.cs_order_rules.specs.Rules.{comes_before, insert_pair, with_pair};

use cs_base::Memory;
use std::alloc::Global;

/// A view, and the digest that was confirmed in it.
pub type Pair = (u16, [u8; 32]);

/// The pairs with one more, by falling view and then rising digest, each pair once.
pub fn with_pair(alloc: Global, pairs: Vec<Pair>, pair: Option<Pair>) -> Result<Vec<Pair>, Memory>
    ensures { IfOk result (λ new. new.items ≡ with_pair pair pairs.items) }
{
    let Some(pair) = pair else {
        return Ok(pairs);
    };
    let mut out = Vec::new(alloc);
    let mut waiting = Some(pair);
    for other in &pairs {
        waiting = place(waiting, *other, &mut out)?;
    }
    if let Some(pair) = waiting {
        out.push(pair)?;
    }
    Ok(out)
}

/// Gives out the next pair, after the one that waits where that comes before it.
fn place(waiting: Option<Pair>, other: Pair, out: &mut Vec<Pair>) -> Result<Option<Pair>, Memory>
    ensures { IfOk result (λ now. (rest : List (ℕ × List ℕ)) →
        out.new.items ++ with_pair now rest
        ≡ out.old.items ++ with_pair waiting (other ∷ rest)) }
{
    let Some(pair) = waiting else {
        out.push(other)?;
        return Ok(None);
    };
    if comes_before(&pair, &other) {
        out.push(pair)?;
        out.push(other)?;
        return Ok(None);
    }
    out.push(other)?;
    if comes_before(&other, &pair) {
        return Ok(Some(pair));
    }
    Ok(None)
}

fn comes_before(one: &Pair, other: &Pair) -> bool
    ensures { result ≡ comes_before one.now other.now }
{
    other.0 < one.0 || (one.0 == other.0 && one.1.cmp(&other.1).is_lt())
}
