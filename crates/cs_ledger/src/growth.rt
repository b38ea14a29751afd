// What stays true of the shards, whatever steps come later. Steps are newest first.

ghost use Rattle.std.specs.Prelude.{◌≡◌, ℕ, List, true, ◌++◌};
ghost use Rattle.cs_base.specs.Lists.{IsIn};
ghost use Rattle.cs_ledger.specs.Session.{Rules, Session, concerns};
ghost use Rattle.cs_ledger.specs.Table.{Vote, Abort, Aborted};
ghost use Rattle.cs_ledger.specs.ShardWorld.{Step, IsShardWorld, sessions, shard_votes, decides, all_commit, one_aborts, history};

/// The vote of a shard stays.
pub fn votes_more()
    ensures { (rules : Rules) (later past : List Step) (shard : ℕ) (x : Session) (vote : Vote) →
        shard_votes rules past shard x vote ≡ true → shard_votes rules (later ++ past) shard x vote ≡ true }
{}

/// Where every concerned shard has voted commit on a session, it stays so.
pub fn all_more()
    ensures { (rules : Rules) (later past : List Step) (x : Session) →
        all_commit rules past x ≡ true → all_commit rules (later ++ past) x ≡ true }
{}

/// Where a concerned shard has voted abort on a session, it stays so.
pub fn one_more()
    ensures { (rules : Rules) (later past : List Step) (x : Session) →
        one_aborts rules past x ≡ true → one_aborts rules (later ++ past) x ≡ true }
{}

/// Once every concerned shard has voted commit on a session, its transaction is in the history,
/// and no abort comes after.
pub fn commit_stays()
    ensures listed { (rules : Rules) (later past : List Step) →
        IsShardWorld rules (later ++ past) →
        (x : Session) → IsIn x (sessions (later ++ past)) →
        (shard : ℕ) → concerns rules x shard ≡ true →
        all_commit rules past x ≡ true → IsIn x.transaction (history rules (later ++ past)) }
    ensures never_aborted { (rules : Rules) (later past : List Step) →
        IsShardWorld rules (later ++ past) →
        (x : Session) → IsIn x (sessions (later ++ past)) →
        all_commit rules past x ≡ true → (shard : ℕ) →
        (shard_votes rules (later ++ past) shard x Abort ≡ true → ⊥)
        × (decides rules (later ++ past) shard x Aborted ≡ true → ⊥) }
{}
