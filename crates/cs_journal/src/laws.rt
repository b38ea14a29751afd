//! What holds of the files of journals.
ghost use Rattle.std.specs.Prelude.{◌≡◌, ◌⊎◌, ◌++◌, ◌∷◌, [], ℕ, List};
ghost use Rattle.cs_io.specs.declared.link.MemInput.{MemInput};
ghost use Rattle.cs_journal.specs.Journal.{IsJournal, Survives};

/// A file is a journal of one list of inputs at most.
pub fn a_file_is_one_journal()
    ensures { (id : List ℕ) (inputs others : List MemInput) (file : List ℕ) → IsJournal id inputs file
        → IsJournal id others file → inputs ≡ others }
{}

/// What a crash leaves is a journal of the inputs from before, or of these and the next one.
pub fn what_survives_is_a_journal()
    ensures { (id : List ℕ) (inputs : List MemInput) (next : MemInput) (file : List ℕ)
        → Survives id inputs next file
        → IsJournal id inputs file ⊎ IsJournal id (inputs ++ next ∷ []) file }
{}
