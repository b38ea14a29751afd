//! The digests that a member echoed in a slot.
ghost use Rattle.std.specs.Prelude.{◌≡◌, ℕ, List, ◌++◌, ◌∷◌, nat_lt, bytes_eq, if◌then◌else◌, IfOk, Some};
ghost use Rattle.std.specs.List.{list_any};
ghost use Rattle.cs_order_rules.specs.Rules.{insert_line, with_line};

use cs_base::Memory;
use std::alloc::Global;

/// A digest, and the greatest view in which it was echoed.
type Line = ([u8; 32], u16);

/// The lines with one more, by rising digests, each digest once.
pub fn with_line(alloc: Global, lines: &[Line], line: Line) -> Result<Vec<Line>, Memory>
    ensures { IfOk result (λ new. new.items ≡ insert_line line lines.now) }
{
    let mut out = Vec::new(alloc);
    let mut waiting = Some(line);
    for other in lines {
        waiting = place(waiting, *other, &mut out)?;
    }
    if let Some(line) = waiting {
        out.push(line)?;
    }
    Ok(out)
}

/// Gives out the next line, after the one that waits where that comes before it.
fn place(waiting: Option<Line>, other: Line, out: &mut Vec<Line>) -> Result<Option<Line>, Memory>
    ensures { IfOk result (λ now. (rest : List (List ℕ × ℕ)) →
        out.new.items ++ with_line now rest
        ≡ out.old.items ++ with_line waiting (other ∷ rest)) }
{
    let Some(line) = waiting else {
        out.push(other)?;
        return Ok(None);
    };
    if line.0 == other.0 {
        out.push(later(line, other))?;
        return Ok(None);
    }
    if line.0.cmp(&other.0).is_lt() {
        out.push(line)?;
        out.push(other)?;
        return Ok(None);
    }
    out.push(other)?;
    Ok(Some(line))
}

fn later(line: Line, other: Line) -> Line
    ensures { result ≡ (if nat_lt other.1 line.1 then line else other) }
{
    if other.1 < line.1 { line } else { other }
}

/// The digest is one of those listed.
pub fn is_listed(lines: &[Line], digest: &[u8; 32]) -> bool
    ensures { result ≡ list_any (λ (line : List ℕ × ℕ). bytes_eq line.0 digest.now) lines.now }
{
    for line in lines {
        if line.0 == *digest {
            return true;
        }
    }
    false
}
