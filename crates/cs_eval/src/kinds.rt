//! The kind of an expression, from the kinds of names: what is looked at is only what is evaluated
//! first, so it takes no longer than that.
ghost use Rattle.std.specs.Prelude.{◌≡◌, List, map, option_and_then};
ghost use Rattle.cs_types_kinds.specs.Kinds.{list_kind_of};
ghost use Rattle.cs_types_kinds.specs.Judging.{kind_of_rank};
ghost use Rattle.cs_eval.specs.Kinds.{cost_of_comparing};
ghost use Rattle.cs_eval.specs.Meaning.{kind_given as kind_meant, step_kind as kind_stepped, steps_kind as kinds_stepped, step_meant};
ghost use Rattle.cs_eval.specs.Machine.{seen_from};
ghost use Rattle.cs_eval_values.specs.Namings.{Named};

use crate::scene::Scene;
use cs_eval_values::Names;
use cs_lang::{Access, Expr, Rank, Shape, Step};
use cs_types_kinds::{BOOL, BYTES, INT, Kind, comparing_cost, field_kind, kind_of};

/// What it takes to compare two of a kind.
pub fn comparing(kind: Option<Kind>) -> u64
    ensures { result ≡ cost_of_comparing kind }
{
    match kind {
        Some(kind) => comparing_cost(kind),
        None => 1,
    }
}

fn rank_kind(rank: Rank) -> Kind
    ensures { result ≡ kind_of_rank rank }
{
    match rank {
        Rank::Or => BOOL,
        Rank::And => BOOL,
        Rank::Sum => INT,
        Rank::Product => INT,
    }
}

/// The kind of what a step leads to.
#[tactic(auto, using(crate::proofs::Layers::stepping))]
fn step_kind(scene: &Scene<'_, '_>, found: Option<Kind>, step: &Step) -> Option<Kind>
    ensures { (names : List Named) → result
        ≡ kind_stepped found (step_meant (seen_from scene.now names) step.now) }
{
    let kind = found?;
    match &step.access {
        Access::Field(name) => match kind {
            Kind::Object(number) => field_kind(scene.contract, number, name).ok(),
            _ => None,
        },
        Access::Index(_) => kind.item_of(),
    }
}

/// The kind of what steps lead to.
fn steps_kind(scene: &Scene<'_, '_>, start: Option<Kind>, steps: &[Step]) -> Option<Kind>
    ensures { (names : List Named) → result
        ≡ kinds_stepped start (map (step_meant (seen_from scene.now names)) steps.now) }
{
    let mut found = start;
    for step in steps {
        found = step_kind(scene, found, step);
    }
    found
}

/// The kind of a list whose first item has the kind.
fn listed(first: Option<Kind>) -> Option<Kind>
    ensures { result ≡ option_and_then list_kind_of first }
{
    first?.list_of()
}

/// The kind of an expression.
#[tactic(auto, using(crate::proofs::Layers::own_kinds))]
pub fn kind_given(scene: &Scene<'_, '_>, names: &Names<'_>, expr: &Expr) -> Option<Kind>
    ensures { result ≡ kind_meant (seen_from scene.now names.now) expr.now }
{
    match &expr.shape {
        Shape::Number(_) => Some(INT),
        Shape::Bytes(_) => Some(BYTES),
        Shape::Truth(_) => Some(BOOL),
        Shape::Name(name) => names.kind(name.as_slice(), expr.place),
        Shape::List(items) => match items.as_slice() {
            [first, ..] => listed(kind_given(scene, names, first)),
            [] => None,
        },
        Shape::Empty(kind) => kind_of(kind),
        Shape::Len(_) => Some(INT),
        Shape::Sha256(_) => Some(BYTES),
        Shape::Concat(front, _) => kind_given(scene, names, front.get()),
        Shape::Called(_, _) => Some(BOOL),
        Shape::DepInt(_, _) => Some(INT),
        Shape::Path(start, steps) => {
            let found = kind_given(scene, names, start.get());
            steps_kind(scene, found, steps.as_slice())
        }
        Shape::Not(_) => Some(BOOL),
        Shape::Negative(_) => Some(INT),
        Shape::Compared(_, _, _) => Some(BOOL),
        Shape::Chain(rank, _, _) => Some(rank_kind(*rank)),
    }
}
