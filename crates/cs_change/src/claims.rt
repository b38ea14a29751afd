//! What the change of a member claims, where it gave one.
ghost use Rattle.std.specs.Prelude.{◌≡◌, option_copied};
ghost use Rattle.std.specs.List.{list_any};
ghost use Rattle.cs_order_rules.specs.Safe.{says_none, says_allowed, is_echo_listed, says_echoed};

use cs_order_rules::Change;

/// It has no prepared pair.
pub fn has_no_pair(change: Option<&Change>) -> bool
    ensures { result ≡ says_none (option_copied change.entry) }
{
    match change {
        Some(change) => change.prepared.is_none(),
        None => false,
    }
}

/// It has no prepared pair, or one of an earlier view, or exactly this one.
pub fn allows(change: Option<&Change>, view: u16, digest: &[u8; 32]) -> bool
    ensures { result ≡ says_allowed view digest.now (option_copied change.entry) }
{
    let Some(change) = change else {
        return false;
    };
    match change.prepared {
        Some(pair) => pair.0 < view || (pair.0 == view && pair.1 == *digest),
        None => true,
    }
}

/// It lists the digest as echoed at a view from the first to below the second.
pub fn lists_echo(change: Option<&Change>, from: u16, below: u16, digest: &[u8; 32]) -> bool
    ensures { result ≡ says_echoed from below digest.now (option_copied change.entry) }
{
    match change {
        Some(change) => lists(change.echoed.as_slice(), from, below, digest),
        None => false,
    }
}

fn lists(lines: &[([u8; 32], u16)], from: u16, below: u16, digest: &[u8; 32]) -> bool
    ensures { result ≡ list_any (is_echo_listed from below digest.now) lines.now }
{
    for line in lines {
        if line.0 == *digest && from <= line.1 && line.1 < below {
            return true;
        }
    }
    false
}
