// What holds of one shard by itself, whatever entries come.

ghost use Rattle.std.specs.Prelude.{◌≡◌, ℕ, List, true, Some, ◌++◌};
ghost use Rattle.cs_base.specs.Lists.{IsIn};
ghost use Rattle.cs_ledger.specs.Session.{AreToldApart, Rules, Session, Key, anchor};
ghost use Rattle.cs_ledger.specs.Table.{Vote, Entry, table_of};
ghost use Rattle.cs_ledger.specs.Standing.{stands_aborted};
ghost use Rattle.cs_ledger.specs.ShardWorld.{sessions_of, votes_in};

/// A shard votes once on a session.
pub fn one_vote()
    ensures { (rules : Rules) (shard : ℕ) (entries : List Entry) →
        AreToldApart (sessions_of entries) →
        (x : Session) → IsIn x (sessions_of entries) → (v w : Vote) →
        votes_in rules shard x.digest v entries ≡ true →
        votes_in rules shard x.digest w entries ≡ true → v ≡ w }
{}

/// A session whose standing is Aborted keeps it. Logs are newest first.
pub fn aborted_stays()
    ensures { (rules : Rules) (shard : ℕ) (earlier later : List Entry) →
        AreToldApart (sessions_of (later ++ earlier)) →
        (x : Session) → IsIn x (sessions_of (later ++ earlier)) →
        (key : Key) → anchor rules x shard ≡ Some key →
        stands_aborted ((table_of rules shard earlier).at key) x.digest ≡ true →
        stands_aborted ((table_of rules shard (later ++ earlier)).at key) x.digest ≡ true }
{}
