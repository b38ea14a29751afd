//! What the checks of contracts mean, and the law of accepted ones: each keeps within its cost, and
//! meets no value of a wrong kind.
#![tactic(auto)]

ghost use Rattle.std.specs.Prelude.{ℕ, ◌+◌, ◌*◌, ◌≤◌, List};
ghost use Rattle.cs_types.specs.Accepted.{Accepted, IsAccepted};
ghost use Rattle.cs_eval_values.specs.declared.view.View.{View};
ghost use Rattle.cs_eval_law.specs.Checks.{spends, check_cost, check_places, check_run, IsKinded};

/// On every view the check of a method of an accepted contract spends no more than it was accepted
/// with, and comes to no trap for a value of a wrong kind. Its places are at most twice that cost, and
/// two.
///
/// It does nothing: its contract is a theorem.
#[tactic(auto, using(crate::proofs::Kept::lawful))]
pub fn checks_are_lawful()
    ensures bounded { (a : Accepted) → IsAccepted a → (method : List ℕ) (view : View) →
        spends a.contract method view ≤ check_cost a method }
    ensures kinded { (a : Accepted) → IsAccepted a → (method : List ℕ) (view : View) →
        IsKinded (check_run a.contract method view) }
    ensures roomy { (a : Accepted) → IsAccepted a → (method : List ℕ) →
        check_places a.contract method ≤ 2 * check_cost a method + 2 }
{}
