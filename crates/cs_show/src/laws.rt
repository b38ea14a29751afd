//! What is known of a line that is seen.
ghost use Rattle.std.specs.Prelude.{◌≡◌, ℕ, Bool, List, Some};
ghost use Rattle.cs_order.specs.Runs.{FewLiars};
ghost use Rattle.cs_client.specs.Inputs.{ClientInput};
ghost use Rattle.cs_show.specs.declared.lookup.Lookup.{Lookup};
ghost use Rattle.cs_show.specs.Words.{seen};
ghost use Rattle.cs_show.specs.Honest.{WasTold};

/// Where no more than f nodes of the key's shard lie, what is seen is what an honest one said last.
pub fn what_is_seen_was_told()
    ensures { (l : Lookup) (inputs : List ClientInput) (line : List ℕ) (honest : ℕ → Bool) →
        FewLiars l.config.f honest → seen l inputs ≡ Some line → WasTold honest l inputs line }
{}
