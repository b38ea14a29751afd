// The keys of which something is known: which they are, and their order.

ghost use Rattle.std.specs.Prelude.{◌≡◌, ◌<◌, ◌^◌, ℕ, List};
ghost use Rattle.std.specs.Ordering.{nat_cmp};
ghost use Rattle.std.specs.Cmp.Lexicographic.{slice_cmp};
ghost use Rattle.cs_ledger.specs.Session.{Rules, Key, Object, Dummy};
ghost use Rattle.cs_ledger.specs.Table.{Table, Entry, exec, start};
ghost use Rattle.cs_check_rules.specs.Keys.{key_order, AreKnown, start_keys, keys_after};
ghost use Rattle.cs_check_rules.specs.Root.{ledger_key_bytes};

/// At its start a shard knows something of its genesis objects and its first dummies alone.
pub fn known_keys_at_the_start()
    ensures { (rules : Rules) (shard : ℕ) →
        AreKnown (start_keys rules shard) (start rules shard) }
{}

/// After an entry was executed, it knows something of those alone that were known before, and of
/// those that the session of the entry names or brings into being.
pub fn known_keys_after_an_entry()
    ensures { (rules : Rules) (shard : ℕ) (t : Table) (entry : Entry) (keys : List Key) →
        AreKnown keys t →
        AreKnown (keys_after rules shard t entry keys) (exec rules shard t entry).table }
{}

/// So the known keys of a table are one list.
pub fn known_keys_are_one()
    ensures { (t : Table) (keys others : List Key) →
        AreKnown keys t → AreKnown others t → keys ≡ others }
{}

/// Keys rise as the bytes do that they are encoded by.
pub fn keys_rise_as_bytes()
    ensures objects { (a b : List ℕ) →
        key_order (Object a) (Object b)
        ≡ slice_cmp nat_cmp (ledger_key_bytes (Object a)) (ledger_key_bytes (Object b)) }
    ensures dummies { (shard serial shard_b serial_b : ℕ) →
        shard < 2 ^ 16 → serial < 2 ^ 64 → shard_b < 2 ^ 16 → serial_b < 2 ^ 64 →
        key_order (Dummy shard serial) (Dummy shard_b serial_b)
        ≡ slice_cmp nat_cmp
        (ledger_key_bytes (Dummy shard serial)) (ledger_key_bytes (Dummy shard_b serial_b)) }
    ensures first { (a : List ℕ) (shard serial : ℕ) →
        key_order (Object a) (Dummy shard serial)
        ≡ slice_cmp nat_cmp (ledger_key_bytes (Object a)) (ledger_key_bytes (Dummy shard serial)) }
    ensures last { (a : List ℕ) (shard serial : ℕ) →
        key_order (Dummy shard serial) (Object a)
        ≡ slice_cmp nat_cmp (ledger_key_bytes (Dummy shard serial)) (ledger_key_bytes (Object a)) }
{}
