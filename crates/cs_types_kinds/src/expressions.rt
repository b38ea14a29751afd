//! Kinds and costs of expressions.
ghost use Rattle.std.specs.Prelude.{◌≡◌, map};
ghost use Rattle.cs_types_kinds.specs.Told.{told_through, plus};
ghost use Rattle.cs_types_kinds.specs.Judging.{judged, wanted, name_judged, empty_judged, called_judged, depint_judged, kind_of_list, first_item, next_item, any_item, items_of_parts, list_judged, len_judged, sha256_judged, concat_of, not_judged, negative_judged, is_equality, compares, comparing_cost, compared_of, kind_of_rank, link_added, chain_of, field_judged, index_judged, step_taken, path_of};
ghost use Rattle.cs_types_kinds.specs.Parts.{part_of, link_part, step_part};

use crate::declared::{field_kind, method_number};
use crate::fault::TypeError;
use crate::kind::{BOOL, BYTES, INT, Kind, kind_of};
use crate::scope::Scope;
use cs_lang::{Access, Comparison, Expr, Link, Rank, Shape, Step, Text, ValueKind};
use cs_lang_token::MOST_ITEMS;

/// What a hash costs, and what joins two or compares bytes: 16 more than another step.
pub const HASH_COST: u64 = 17;

/// A kind, and what its expression costs.
#[derive(Clone, Copy)]
pub struct Judged {
    pub kind: Kind,
    pub cost: u64,
}

/// The items of a list so far: the kind of each, that of the list, and what they cost together.
#[derive(Clone, Copy)]
pub struct Items {
    pub item: Kind,
    pub list: Kind,
    pub sum: u64,
}

/// The sum of costs, which stops at the greatest number.
pub fn plus(sum: u64, cost: u64) -> u64
    ensures { result ≡ plus sum cost }
{
    sum.saturating_add(cost)
}

fn with_cost(kind: Kind, cost: u64) -> Result<Judged, TypeError>
    ensures { result ≡ judged kind cost }
{
    Ok(Judged { kind, cost })
}

/// The cost of an expression that has to be of this kind.
#[cycle(judging)]
#[tactic(auto, using(crate::proofs::Layers::part_first))]
pub fn expect(scope: &Scope<'_>, expr: &Expr, kind: Kind) -> Result<u64, TypeError>
    ensures { result ≡ wanted kind (part_of scope.now expr.now) }
{
    let found = judge(scope, expr)?;
    if found.kind.same(kind) {
        return Ok(found.cost);
    }
    Err(TypeError::Mistyped(expr.first))
}

/// The kind of an expression and its cost.
#[cycle(judging)]
#[tactic(auto, using(crate::proofs::Layers::parts))]
pub fn judge(scope: &Scope<'_>, expr: &Expr) -> Result<Judged, TypeError>
    ensures { result ≡ (part_of scope.now expr.now).found }
{
    match &expr.shape {
        Shape::Number(_) => with_cost(INT, 1),
        Shape::Bytes(_) => with_cost(BYTES, 1),
        Shape::Truth(_) => with_cost(BOOL, 1),
        Shape::Name(name) => judge_name(scope, name.as_slice(), expr.place),
        Shape::List(items) => judge_list(scope, items.as_slice(), expr.place),
        Shape::Empty(kind) => judge_empty(kind, expr.place),
        Shape::Len(inner) => judge_len(scope, inner.get()),
        Shape::Sha256(inner) => judge_sha256(scope, inner.get()),
        Shape::Concat(front, back) => {
            let told = judge(scope, front.get());
            judge_concat(scope, told, front.get().first, back.get())
        }
        Shape::Called(_, method) => judge_called(scope, method, expr.place),
        Shape::DepInt(_, _) => judge_depint(scope, expr.place),
        Shape::Path(start, steps) => {
            let told = judge(scope, start.get());
            judge_path(scope, told, steps.as_slice())
        }
        Shape::Not(inner) => judge_not(scope, inner.get()),
        Shape::Negative(inner) => judge_negative(scope, inner.get()),
        Shape::Compared(comparison, left, right) => {
            let told = judge(scope, left.get());
            judge_compared(scope, *comparison, told, left.get().first, right.get())
        }
        Shape::Chain(rank, start, links) => {
            let kind = kind_of_rank(*rank);
            let told = expect(scope, start.get(), kind);
            judge_chain(scope, kind, told, links.as_slice())
        }
    }
}

/// A name in sight.
fn judge_name(scope: &Scope<'_>, name: &[u8], place: usize) -> Result<Judged, TypeError>
    ensures { result ≡ name_judged scope.now name.now place }
{
    match scope.find(name) {
        Some(seen) => with_cost(seen.kind, 1),
        None => Err(TypeError::Unbound(place)),
    }
}

/// The empty list of a kind.
fn judge_empty(kind: &ValueKind, place: usize) -> Result<Judged, TypeError>
    ensures { result ≡ empty_judged kind.now place }
{
    match kind_of(kind) {
        Some(kind) => {
            if kind.is_list() {
                return with_cost(kind, 1);
            }
            Err(TypeError::Mistyped(place))
        }
        None => Err(TypeError::Mistyped(place)),
    }
}

/// Whether a dep called a method.
fn judge_called(scope: &Scope<'_>, method: &Text, place: usize) -> Result<Judged, TypeError>
    ensures { result ≡ called_judged scope.now method.now place }
{
    if !scope.in_check() {
        return Err(TypeError::Mistyped(place));
    }
    match method_number(scope.contract().methods.as_slice(), method.bytes.as_slice()) {
        Some(_) => with_cost(BOOL, 1),
        None => Err(TypeError::Unbound(method.place)),
    }
}

/// A returned value of a dep.
fn judge_depint(scope: &Scope<'_>, place: usize) -> Result<Judged, TypeError>
    ensures { result ≡ depint_judged scope.now place }
{
    if !scope.in_check() {
        return Err(TypeError::Mistyped(place));
    }
    with_cost(INT, 1)
}

/// The kind of a list of such items.
fn kind_of_list(kind: Kind, first: usize, place: usize) -> Result<Kind, TypeError>
    ensures { result ≡ kind_of_list kind first place }
{
    match kind {
        Kind::Value(_, _) => match kind.list_of() {
            Some(list) => Ok(list),
            None => Err(TypeError::Mistyped(place)),
        },
        _ => Err(TypeError::Mistyped(first)),
    }
}

/// The first item of a list that is written out at a place.
#[cycle(judging)]
#[tactic(auto, using(crate::proofs::Layers::part_first))]
fn first_item(scope: &Scope<'_>, item: &Expr, place: usize) -> Result<Items, TypeError>
    ensures { result ≡ first_item place (part_of scope.now item.now) }
{
    let found = judge(scope, item)?;
    match kind_of_list(found.kind, item.first, place) {
        Ok(list) => Ok(Items {
            item: found.kind,
            list,
            sum: found.cost,
        }),
        Err(fault) => Err(fault),
    }
}

/// An item of a list behind others.
#[cycle(judging)]
fn next_item(scope: &Scope<'_>, items: Items, item: &Expr) -> Result<Items, TypeError>
    ensures { result ≡ next_item items (part_of scope.now item.now) }
{
    let cost = expect(scope, item, items.item)?;
    Ok(Items {
        item: items.item,
        list: items.list,
        sum: plus(items.sum, cost),
    })
}

/// An item of a list that is written out at a place.
#[cycle(judging)]
fn any_item(
    scope: &Scope<'_>,
    place: usize,
    so_far: Option<Items>,
    item: &Expr,
) -> Result<Option<Items>, TypeError>
    ensures { result ≡ any_item place so_far (part_of scope.now item.now) }
{
    match so_far {
        Some(items) => match next_item(scope, items, item) {
            Ok(more) => Ok(Some(more)),
            Err(fault) => Err(fault),
        },
        None => match first_item(scope, item, place) {
            Ok(first) => Ok(Some(first)),
            Err(fault) => Err(fault),
        },
    }
}

/// The items of a list that is written out at a place.
#[cycle(judging)]
fn all_items(scope: &Scope<'_>, items: &[Expr], place: usize) -> Result<Option<Items>, TypeError>
    ensures { result ≡ items_of_parts place (map (part_of scope.now) items.now) }
{
    let mut so_far = None;
    for item in items {
        so_far = any_item(scope, place, so_far, item)?;
    }
    Ok(so_far)
}

/// A list that is written out.
#[cycle(judging)]
fn judge_list(scope: &Scope<'_>, items: &[Expr], place: usize) -> Result<Judged, TypeError>
    ensures { result ≡ list_judged (map (part_of scope.now) items.now) place }
{
    if items.len() > MOST_ITEMS {
        return Err(TypeError::Mistyped(place));
    }
    match all_items(scope, items, place) {
        Ok(Some(items)) => with_cost(items.list, plus(items.sum, 1)),
        Ok(None) => Err(TypeError::Mistyped(place)),
        Err(fault) => Err(fault),
    }
}

/// The length of bytes or of a list.
#[cycle(judging)]
#[tactic(auto, using(crate::proofs::Layers::part_first))]
fn judge_len(scope: &Scope<'_>, inner: &Expr) -> Result<Judged, TypeError>
    ensures { result ≡ len_judged (part_of scope.now inner.now) }
{
    let found = judge(scope, inner)?;
    if found.kind.has_length() {
        return with_cost(INT, plus(found.cost, 1));
    }
    Err(TypeError::Mistyped(inner.first))
}

/// The hash of bytes.
#[cycle(judging)]
fn judge_sha256(scope: &Scope<'_>, inner: &Expr) -> Result<Judged, TypeError>
    ensures { result ≡ sha256_judged (part_of scope.now inner.now) }
{
    let cost = expect(scope, inner, BYTES)?;
    with_cost(BYTES, plus(cost, HASH_COST))
}

/// Two that are joined: what is told of the first, where it begins, and the second.
#[cycle(judging)]
fn judge_concat(
    scope: &Scope<'_>,
    told: Result<Judged, TypeError>,
    first: usize,
    back: &Expr,
) -> Result<Judged, TypeError>
    ensures { result ≡ concat_of told first (part_of scope.now back.now) }
{
    let found = told?;
    if !found.kind.joins() {
        return Err(TypeError::Mistyped(first));
    }
    let cost = expect(scope, back, found.kind)?;
    with_cost(found.kind, plus(plus(found.cost, cost), HASH_COST))
}

#[cycle(judging)]
fn judge_not(scope: &Scope<'_>, inner: &Expr) -> Result<Judged, TypeError>
    ensures { result ≡ not_judged (part_of scope.now inner.now) }
{
    let cost = expect(scope, inner, BOOL)?;
    with_cost(BOOL, plus(cost, 1))
}

#[cycle(judging)]
fn judge_negative(scope: &Scope<'_>, inner: &Expr) -> Result<Judged, TypeError>
    ensures { result ≡ negative_judged (part_of scope.now inner.now) }
{
    let cost = expect(scope, inner, INT)?;
    with_cost(INT, plus(cost, 1))
}

fn is_equality(comparison: Comparison) -> bool
    ensures { result ≡ is_equality comparison }
{
    match comparison {
        Comparison::Equal => true,
        Comparison::NotEqual => true,
        _ => false,
    }
}

/// Whether two of the kind can be compared so.
fn compares(comparison: Comparison, kind: Kind) -> bool
    ensures { result ≡ compares comparison kind }
{
    kind.same(INT) || is_equality(comparison) && (kind.same(BOOL) || kind.same(BYTES))
}

/// What comparing two of the kind costs.
pub fn comparing_cost(kind: Kind) -> u64
    ensures { result ≡ comparing_cost kind }
{
    if kind.same(BYTES) { HASH_COST } else { 1 }
}

/// Two that are compared: what is told of the first, where it begins, and the second.
#[cycle(judging)]
fn judge_compared(
    scope: &Scope<'_>,
    comparison: Comparison,
    told: Result<Judged, TypeError>,
    first: usize,
    right: &Expr,
) -> Result<Judged, TypeError>
    ensures { result ≡ compared_of comparison told first (part_of scope.now right.now) }
{
    let found = told?;
    if !compares(comparison, found.kind) {
        return Err(TypeError::Mistyped(first));
    }
    let cost = expect(scope, right, found.kind)?;
    let own = comparing_cost(found.kind);
    with_cost(BOOL, plus(plus(found.cost, cost), own))
}

/// The kind of both sides of an operator, and of what it makes of them.
fn kind_of_rank(rank: Rank) -> Kind
    ensures { result ≡ kind_of_rank rank }
{
    match rank {
        Rank::Or => BOOL,
        Rank::And => BOOL,
        Rank::Sum => INT,
        Rank::Product => INT,
    }
}

/// The costs of a chain's operators and right operands behind that of its start.
#[cycle(judging)]
fn rights(scope: &Scope<'_>, kind: Kind, start: u64, links: &[Link]) -> Result<u64, TypeError>
    ensures { result ≡ told_through (link_added kind) start (map (link_part scope.now) links.now) }
{
    let mut sum = start;
    for link in links {
        sum = add_link(scope, kind, sum, link)?;
    }
    Ok(sum)
}

/// The sum with the costs of an operator and its right operand.
#[cycle(judging)]
#[tactic(auto, using(crate::proofs::Layers::link_is))]
fn add_link(scope: &Scope<'_>, kind: Kind, sum: u64, link: &Link) -> Result<u64, TypeError>
    ensures { result ≡ link_added kind sum (link_part scope.now link.now) }
{
    let cost = expect(scope, &link.right, kind)?;
    Ok(plus(sum, plus(cost, 1)))
}

/// Operands with operators between them: what is told of the first, and the others.
#[cycle(judging)]
fn judge_chain(
    scope: &Scope<'_>,
    kind: Kind,
    told: Result<u64, TypeError>,
    links: &[Link],
) -> Result<Judged, TypeError>
    ensures { result ≡ chain_of kind told (map (link_part scope.now) links.now) }
{
    let start = told?;
    let sum = rights(scope, kind, start, links)?;
    with_cost(kind, sum)
}

/// A field of an object.
fn judge_field(
    scope: &Scope<'_>,
    name: &Text,
    first: usize,
    found: Judged,
) -> Result<Judged, TypeError>
    ensures { result ≡ field_judged scope.now name.now first found }
{
    match found.kind {
        Kind::Object(number) => {
            let kind = field_kind(scope.contract(), number, name)?;
            with_cost(kind, plus(found.cost, 1))
        }
        _ => Err(TypeError::Mistyped(first)),
    }
}

/// An item of a list, or one of several objects.
#[cycle(judging)]
fn judge_index(
    scope: &Scope<'_>,
    place: &Expr,
    first: usize,
    found: Judged,
) -> Result<Judged, TypeError>
    ensures { result ≡ index_judged (part_of scope.now place.now) first found }
{
    match found.kind.item_of() {
        Some(kind) => {
            let cost = expect(scope, place, INT)?;
            with_cost(kind, plus(plus(found.cost, cost), 1))
        }
        None => Err(TypeError::Mistyped(first)),
    }
}

/// One step on.
#[cycle(judging)]
#[tactic(auto, using(crate::proofs::Layers::steps))]
fn take_step(scope: &Scope<'_>, step: &Step, found: Judged) -> Result<Judged, TypeError>
    ensures { result ≡ step_part scope.now step.now found }
{
    match &step.access {
        Access::Field(name) => judge_field(scope, name, step.first, found),
        Access::Index(place) => judge_index(scope, place, step.first, found),
    }
}

/// Steps into a value: what is told of it, and the steps.
#[cycle(judging)]
fn judge_path(
    scope: &Scope<'_>,
    told: Result<Judged, TypeError>,
    steps: &[Step],
) -> Result<Judged, TypeError>
    ensures { result ≡ path_of told (map (step_part scope.now) steps.now) }
{
    let found = told?;
    all_steps(scope, steps, found)
}

/// One step on after the other.
#[cycle(judging)]
fn all_steps(scope: &Scope<'_>, steps: &[Step], start: Judged) -> Result<Judged, TypeError>
    ensures { result ≡ told_through step_taken start (map (step_part scope.now) steps.now) }
{
    let mut found = start;
    for step in steps {
        found = take_step(scope, step, found)?;
    }
    Ok(found)
}
