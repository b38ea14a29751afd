//! The votes on one session.
ghost use Rattle.std.specs.Prelude.{◌≡◌, ◌+◌, ◌*◌, ◌≤◌, ◌<◌, ℕ};
ghost use Rattle.cs_node_state.specs.Evidence.{has_voted, has_ballot, has_support, is_decided, decided_vote};
ghost use Rattle.cs_node_state.specs.Admission.{due_vote};
ghost use Rattle.cs_tx_types.specs.declared.vote.Vote.TheVariants.{Commit, Abort};
ghost use Rattle.cs_quorum.specs.Marks.{members_of, is_marked};
ghost use Rattle.cs_node_pool.specs.Votes.{is_vote_of};

use cs_base::NodeId;
use cs_node_state::{Ballot, Pooled};
use cs_quorum::Tally;
use cs_tx::Vote;

/// Whether a vote of the node was taken.
pub fn has_voted(ballots: &[Ballot], node: NodeId) -> bool
    ensures { result ≡ has_voted node ballots.now }
{
    ballots.iter().any(|ballot| ballot.sender == node)
}

/// Whether it is a vote of this kind, of a member of the shard.
fn is_of(ballot: &Ballot, shard: u16, members: u16, vote: Vote) -> bool
    ensures { result ≡ is_vote_of shard members vote ballot.now }
{
    let sender = ballot.sender;
    sender.shard == shard && sender.index < members && ballot.vote == vote
}

/// The members of the shard that gave the vote.
fn supporters(f: u16, ballots: &[Ballot], vote: Vote, shard: u16) -> Tally
    requires { f ≤ 5 }
    ensures members { members_of result ≡ 3 * f + 1 }
    ensures marked { (index : ℕ) → index < 3 * f + 1 →
        is_marked result index ≡ has_ballot shard index vote ballots.now }
{
    let members = 3 * f + 1;
    let mut tally = Tally::new(members);
    for ballot in ballots {
        if is_of(ballot, shard, members, vote) {
            tally.mark(ballot.sender.index);
        }
    }
    tally
}

/// Whether f + 1 nodes of the shard gave the vote.
fn has_support(f: u16, ballots: &[Ballot], vote: Vote, shard: u16) -> bool
    requires { f ≤ 5 }
    ensures { result ≡ has_support f ballots.now vote shard }
{
    f < supporters(f, ballots, vote, shard).count()
}

fn is_committed(f: u16, shards: &[u16], ballots: &[Ballot]) -> bool
    requires { f ≤ 5 }
    ensures { result ≡ is_decided f shards.now Commit ballots.now }
{
    shards
        .iter()
        .all(|shard| has_support(f, ballots, Vote::Commit, *shard))
}

fn is_aborted(f: u16, shards: &[u16], ballots: &[Ballot]) -> bool
    requires { f ≤ 5 }
    ensures { result ≡ is_decided f shards.now Abort ballots.now }
{
    shards
        .iter()
        .any(|shard| has_support(f, ballots, Vote::Abort, *shard))
}

/// Whether the votes carry the decision. Commit needs every one of the shards, abort one of them.
pub fn is_decided(f: u16, shards: &[u16], vote: Vote, ballots: &[Ballot]) -> bool
    requires { f ≤ 5 }
    ensures { result ≡ is_decided f shards.now vote ballots.now }
{
    match vote {
        Vote::Commit => is_committed(f, shards, ballots),
        Vote::Abort => is_aborted(f, shards, ballots),
    }
}

/// The vote that is decided, commit before abort.
fn decision(f: u16, shards: &[u16], ballots: &[Ballot]) -> Option<Vote>
    requires { f ≤ 5 }
    ensures { result ≡ decided_vote f shards.now ballots.now }
{
    if is_committed(f, shards, ballots) {
        Some(Vote::Commit)
    } else if is_aborted(f, shards, ballots) {
        Some(Vote::Abort)
    } else {
        None
    }
}

/// The decision that is due for a session of the pool, which concerns these shards. Nothing is due
/// while it waits.
pub fn vote_due(f: u16, shards: &[u16], pooled: &Pooled) -> Option<Vote>
    requires { f ≤ 5 }
    ensures { result ≡ due_vote f shards.now pooled.now }
{
    if !pooled.locked {
        return None;
    }
    decision(f, shards, pooled.ballots.as_slice())
}
