//! How much the checks of contracts make: a bound on the values of each accepted one.
#![tactic(auto)]

ghost use Rattle.std.specs.Prelude.{ℕ, ◌*◌, ◌≤◌, List};
ghost use Rattle.cs_types.specs.Accepted.{Accepted, IsAccepted};
ghost use Rattle.cs_eval_law.specs.Checks.{check_cost};
ghost use Rattle.cs_eval_cells.specs.Checks.{check_cells};

/// The check of a method of an accepted contract makes at most four cells for each unit that it
/// may cost, on every view and with every turn.
///
/// It does nothing: its contract is a theorem.
#[tactic(auto, using(crate::proofs::Celled::cells_within))]
pub fn checks_make_few_cells()
    ensures { (a : Accepted) → IsAccepted a → (method : List ℕ) →
        check_cells a.contract method ≤ 4 * check_cost a method }
{}
