// What holds of all shards together.

ghost use Rattle.std.specs.Prelude.{◌≡◌, ℕ, List, true, length, Some};
ghost use Rattle.cs_base.specs.Lists.{IsIn};
ghost use Rattle.cs_ledger.specs.Ledger.{Bytes, IsSpentOnce, Serial, genesis_ledger, ledger_of};
ghost use Rattle.cs_ledger.specs.Session.{Rules, concerns, Session, Object};
ghost use Rattle.cs_ledger.specs.Table.{Vote, Abort, Accepted, Aborted, free_object, table_of};
ghost use Rattle.cs_ledger.specs.ShardWorld.{Step, all_commit, IsShardWorld, sessions, shard_votes, decides, log, history, AreNamedApart};
ghost use Rattle.cs_ledger.specs.Strings.{Origin, WrittenSession, IsFaithful, NoHashCollision, genesis_of_origins, sessions_from};

/// What holds of every list of allowed steps whose digests and names do not collide.
pub fn composition()
    // All Prepare of a session in one log give one vote.
    ensures one_vote { (rules : Rules) (past : List Step) → IsShardWorld rules past →
        (x : Session) → IsIn x (sessions past) → (shard : ℕ) (v w : Vote) →
        shard_votes rules past shard x v ≡ true → shard_votes rules past shard x w ≡ true → v ≡ w }
    // No session is accepted in one log and aborted in another.
    ensures one_decision { (rules : Rules) (past : List Step) → IsShardWorld rules past →
        (x : Session) → IsIn x (sessions past) → (here there : ℕ) →
        decides rules past here x Accepted ≡ true → decides rules past there x Aborted ≡ true → ⊥ }
    // No session is accepted in one log and voted abort in another.
    ensures no_late_abort { (rules : Rules) (past : List Step) → IsShardWorld rules past →
        (x : Session) → IsIn x (sessions past) → (here there : ℕ) →
        decides rules past here x Accepted ≡ true → shard_votes rules past there x Abort ≡ true → ⊥ }
    // The history is one that the plain ledger takes.
    ensures serial { (rules : Rules) (past : List Step) → IsShardWorld rules past →
        Serial (genesis_ledger rules.genesis) (history rules past) }
    // No object is consumed by two transactions of the history.
    ensures spent_once { (rules : Rules) (past : List Step) → IsShardWorld rules past →
        IsSpentOnce (history rules past) }
    // Every accepted transaction is in the history.
    ensures accepted { (rules : Rules) (past : List Step) → IsShardWorld rules past →
        (x : Session) → IsIn x (sessions past) → (shard : ℕ) →
        decides rules past shard x Accepted ≡ true → IsIn x.transaction (history rules past) }
    // A transaction on which every concerned shard votes commit is in the history.
    ensures complete { (rules : Rules) (past : List Step) → IsShardWorld rules past →
        (x : Session) → IsIn x (sessions past) → (shard : ℕ) → concerns rules x shard ≡ true →
        all_commit rules past x ≡ true → IsIn x.transaction (history rules past) }
    // No shard votes abort on such a session, and none aborts it.
    ensures no_abort { (rules : Rules) (past : List Step) → IsShardWorld rules past →
        (x : Session) → IsIn x (sessions past) → all_commit rules past x ≡ true → (shard : ℕ) →
        (shard_votes rules past shard x Abort ≡ true → ⊥)
        × (decides rules past shard x Aborted ≡ true → ⊥) }
    // An object that is free in a table is in the ledger after the history.
    ensures objects { (rules : Rules) (past : List Step) → IsShardWorld rules past →
        (shard : ℕ) (name object : Bytes) →
        free_object ((table_of rules shard (log shard past)).at (Object name)).state ≡ Some object →
        (ledger_of (genesis_ledger rules.genesis) (history rules past)).active name ≡ Some object }
{}

/// Digests and names stay apart where the strings that are hashed do not collide, and all
/// hashes have one length.
pub fn names_apart()
    ensures { (hash : Bytes → Bytes) (origins : List Origin) (written : List WrittenSession) →
        ((a b : Bytes) → length (hash a) ≡ length (hash b)) → IsFaithful written →
        NoHashCollision hash origins written →
        AreNamedApart (genesis_of_origins hash origins) (sessions_from hash written) }
{}
