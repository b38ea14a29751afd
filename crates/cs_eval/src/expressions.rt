//! Evaluating expressions. Nothing goes down a tree by calls of functions: what is left to do
//! stands on a stack.
ghost use Rattle.std.specs.Prelude.{◌≡◌, ◌+◌, ◌-◌, ◌<◌, ◌≤◌, ◌∷◌, [], List, map, max, Ok, IfOk};
ghost use Rattle.cs_eval_values.specs.Answers.{RunEnds};
ghost use Rattle.cs_tx_value.specs.declared.value.Value.TheVariants as value;
ghost use Rattle.cs_eval_values.specs.Datums.{Plain};
ghost use Rattle.cs_eval_values.specs.Runs.{gives};
ghost use Rattle.cs_eval_values.specs.Operators.{with_item as item_added};
ghost use Rattle.cs_eval_values.specs.Namings.{Named};
ghost use Rattle.cs_eval.specs.Meaning.{Environment, named_run, of_one, of_right, of_two, items_run, link_run, links_run, steps_run, chain_run, path_run, expr_meant, link_meant, step_meant, meaning};
ghost use Rattle.cs_eval.specs.Places.{in_turn, in_front, places, places_of_link, places_of_step};
ghost use Rattle.cs_eval.specs.Work.{all_work, work, work_of_link, work_of_step, frame_work, frames_work, left_work};
ghost use Rattle.cs_eval.specs.Room.{frame_places, HasRoomFor, HasRoom};
ghost use Rattle.cs_eval.specs.Machine.{seen_from, resumed, then_resumed, items_resumed, MachineMoves, Evaluates};

use crate::frame::{Frame, Next};
use crate::kinds::{comparing, kind_given};
use crate::scene::Scene;
use crate::stack::Stack;
use cs_base::Sequence;
use cs_eval_shared::Shared;
use cs_eval_values::{
    Binary, Cause, Held, Names, Steps, Stop, Unary, apply_binary, apply_unary, decides, field_of,
    is_called, list_of, number, returned_int, with_item,
};
use cs_lang::{Access, Expr, Link, Shape, Step};
use cs_types_kinds::HASH_COST;
use std::sync::ledger::Ledger;

/// The value of a name.
fn name<'a>(names: &Names<'a>, name: &[u8], place: usize) -> Result<Held<'a>, Stop>
    ensures { RunEnds result (named_run names.now name.now place) }
{
    match names.find(name, place)? {
        Some(held) => Ok(held),
        None => Err(Stop::Trap(Cause::Misfit, place)),
    }
}

/// The empty list.
fn empty_list<'a>(scene: &Scene<'_, 'a>) -> Result<Held<'a>, Stop>
    ensures { RunEnds result (gives (Plain (value.List []))) }
{
    Ok(Held::empty(scene.alloc)?)
}

/// One part is evaluated, and then something is made of it.
#[tactic(auto, using(crate::proofs::Turns::one_first))]
fn open_one<'a>(
    frames: &mut Stack<Frame<'a>>,
    operation: Unary,
    part: &'a Expr,
    place: usize,
) -> Next<'a>
    requires { HasRoomFor (places part.now + 1) frames.old }
    ensures moves { (sight : Environment) → MachineMoves sight (Ok result) 0
        (then_resumed sight frames.old.items
        (of_one operation place (meaning sight part.now))) frames.new.items }
    ensures smaller { left_work result frames.new.items
        ≡ work part.now + 1 + frames_work frames.old.items }
    ensures room { HasRoom result frames.new }
    ensures most { frames.new.most ≡ frames.old.most }
{
    frames.push(Frame::Unary(operation, place));
    Next::Eval(part)
}

/// Two parts are evaluated, the left one first, and then something is made of them.
#[tactic(auto, using(crate::proofs::Turns::two_first))]
fn open_two<'a>(
    frames: &mut Stack<Frame<'a>>,
    operation: Binary,
    left: &'a Expr,
    right: &'a Expr,
    place: usize,
) -> Next<'a>
    requires { HasRoomFor (max (places left.now) (places right.now) + 1) frames.old }
    ensures moves { (sight : Environment) → MachineMoves sight (Ok result) 0
        (then_resumed sight frames.old.items
        (of_two operation place (meaning sight left.now) (meaning sight right.now)))
        frames.new.items }
    ensures smaller { left_work result frames.new.items
        ≡ work left.now + work right.now + 2 + frames_work frames.old.items }
    ensures room { HasRoom result frames.new }
    ensures most { frames.new.most ≡ frames.old.most }
{
    frames.push(Frame::First(operation, right, place));
    Next::Eval(left)
}

/// The right one of two parts is evaluated, and then something is made of them.
fn open_right<'a>(
    frames: &mut Stack<Frame<'a>>,
    operation: Binary,
    left: Held<'a>,
    right: &'a Expr,
    place: usize,
) -> Next<'a>
    requires { HasRoomFor (places right.now + 1) frames.old }
    ensures moves { (sight : Environment) → MachineMoves sight (Ok result) 0
        (then_resumed sight frames.old.items
        (of_right operation place left.entry (meaning sight right.now))) frames.new.items }
    ensures smaller { left_work result frames.new.items
        ≡ work right.now + 1 + frames_work frames.old.items }
    ensures room { HasRoom result frames.new }
    ensures most { frames.new.most ≡ frames.old.most }
{
    frames.push(Frame::Second(operation, left, place));
    Next::Eval(right)
}

/// The leftmost operand of operators is evaluated first.
#[tactic(auto, using(crate::proofs::Turns::then_first, crate::proofs::Turns::chain_none, crate::proofs::PlacesLayers::chain_front))]
fn open_chain<'a>(frames: &mut Stack<Frame<'a>>, start: &'a Expr, links: &'a [Link]) -> Next<'a>
    requires { HasRoomFor
        (in_front (places start.now) (map places_of_link links.now)) frames.old }
    ensures moves { (sight : Environment) → MachineMoves sight (Ok result) 0
        (then_resumed sight frames.old.items
        (chain_run (meaning sight start.now) (map (link_meant sight) links.now))) frames.new.items }
    ensures smaller { left_work result frames.new.items
        ≤ work start.now + all_work (map work_of_link links.now) + frames_work frames.old.items }
    ensures room { HasRoom result frames.new }
    ensures most { frames.new.most ≡ frames.old.most }
{
    match links {
        [] => Next::Eval(start),
        [_, ..] => {
            frames.push(Frame::Chain(links));
            Next::Eval(start)
        }
    }
}

/// What steps lead into is evaluated first.
#[tactic(auto, using(crate::proofs::Turns::then_first, crate::proofs::Turns::path_none, crate::proofs::PlacesLayers::path_front))]
fn open_path<'a>(frames: &mut Stack<Frame<'a>>, start: &'a Expr, steps: &'a [Step]) -> Next<'a>
    requires { HasRoomFor
        (in_front (places start.now) (map places_of_step steps.now)) frames.old }
    ensures moves { (sight : Environment) → MachineMoves sight (Ok result) 0
        (then_resumed sight frames.old.items
        (path_run (meaning sight start.now) (map (step_meant sight) steps.now))) frames.new.items }
    ensures smaller { left_work result frames.new.items
        ≤ work start.now + all_work (map work_of_step steps.now) + frames_work frames.old.items }
    ensures room { HasRoom result frames.new }
    ensures most { frames.new.most ≡ frames.old.most }
{
    match steps {
        [] => Next::Eval(start),
        [_, ..] => {
            frames.push(Frame::Path(steps));
            Next::Eval(start)
        }
    }
}

/// On with the items of a list, behind those whose values are there.
#[tactic(auto, using(crate::proofs::Turns::items_first, crate::proofs::Turns::items_end))]
fn on_items<'a>(
    scene: &Scene<'_, 'a>,
    frames: &mut Stack<Frame<'a>>,
    items: &'a [Expr],
    values: Sequence<Shared<'a>>,
    place: usize,
) -> Result<Next<'a>, Stop>
    requires { HasRoomFor (in_turn (map places items.now)) frames.old }
    ensures moves { (sight : Environment) → MachineMoves sight result 0
        (then_resumed sight frames.old.items
        (items_run place values.entry (map (meaning sight) items.now))) frames.new.items }
    ensures smaller { IfOk result (λ n. left_work n frames.new.items
        < all_work (map work items.now) + frames_work frames.old.items) }
    ensures room { IfOk result (λ n. HasRoom n frames.new) }
    ensures most { frames.new.most ≡ frames.old.most }
{
    match items {
        [first, rest @ ..] => {
            frames.push(Frame::Items(rest, values, place));
            Ok(Next::Eval(first))
        }
        [] => Ok(Next::Give(list_of(scene.alloc, values, place)?)),
    }
}

/// Begins an expression, of which the own units are spent.
#[tactic(auto, using(crate::proofs::Layers::bodies, crate::proofs::WorkLayers::works, crate::proofs::PlacesLayers::shapes))]
fn open<'a>(
    scene: &Scene<'_, 'a>,
    names: &Names<'a>,
    frames: &mut Stack<Frame<'a>>,
    expr: &'a Expr,
) -> Result<Next<'a>, Stop>
    requires { HasRoomFor (places expr.now) frames.old }
    ensures moves { let sight = seen_from scene.now names.now in MachineMoves sight result 0
        (then_resumed sight frames.old.items
        ((expr_meant sight expr.now).body)) frames.new.items }
    ensures smaller { IfOk result (λ n. left_work n frames.new.items
        < work expr.now + frames_work frames.old.items) }
    ensures room { IfOk result (λ n. HasRoom n frames.new) }
    ensures most { frames.new.most ≡ frames.old.most }
{
    let place = expr.place;
    match &expr.shape {
        Shape::Number(n) => Ok(Next::Give(number(*n, place)?)),
        Shape::Bytes(bytes) => Ok(Next::Give(Held::text(bytes.as_slice()))),
        Shape::Truth(truth) => Ok(Next::Give(Held::truth(*truth))),
        Shape::Name(text) => Ok(Next::Give(name(names, text.as_slice(), place)?)),
        Shape::List(items) => {
            let none = Sequence::new(scene.alloc);
            on_items(scene, frames, items.as_slice(), none, place)
        }
        Shape::Empty(_) => Ok(Next::Give(empty_list(scene)?)),
        Shape::Len(part) => Ok(open_one(frames, Unary::Len, part.get(), place)),
        Shape::Sha256(part) => Ok(open_one(frames, Unary::Sha256, part.get(), place)),
        Shape::Not(part) => Ok(open_one(frames, Unary::Not, part.get(), place)),
        Shape::Negative(part) => Ok(open_one(frames, Unary::Negative, part.get(), place)),
        Shape::Concat(front, back) => {
            let operation = Binary::Concat;
            Ok(open_two(frames, operation, front.get(), back.get(), place))
        }
        Shape::Compared(comparison, left, right) => {
            let operation = Binary::Compared(*comparison);
            Ok(open_two(frames, operation, left.get(), right.get(), place))
        }
        Shape::Called(dep, method) => {
            let called = is_called(scene.view, *dep, method.bytes.as_slice());
            Ok(Next::Give(Held::truth(called)))
        }
        Shape::DepInt(dep, value) => {
            Ok(Next::Give(returned_int(scene.view, *dep, *value, place)?))
        }
        Shape::Path(start, steps) => Ok(open_path(frames, start.get(), steps.as_slice())),
        Shape::Chain(_, start, links) => Ok(open_chain(frames, start.get(), links.as_slice())),
    }
}

/// What an expression counts without its parts.
#[tactic(auto, using(crate::proofs::Layers::own_units))]
fn own_units(scene: &Scene<'_, '_>, names: &Names<'_>, expr: &Expr) -> u64
    ensures { result ≡ (expr_meant (seen_from scene.now names.now) expr.now).units }
{
    match &expr.shape {
        Shape::Sha256(_) => HASH_COST,
        Shape::Concat(_, _) => HASH_COST,
        Shape::Compared(_, left, _) => comparing(kind_given(scene, names, left.get())),
        Shape::Path(_, steps) => steps.len() as u64,
        Shape::Chain(_, _, links) => links.len() as u64,
        Shape::Number(_) => 1,
        Shape::Bytes(_) => 1,
        Shape::Truth(_) => 1,
        Shape::Name(_) => 1,
        Shape::List(_) => 1,
        Shape::Empty(_) => 1,
        Shape::Len(_) => 1,
        Shape::Called(_, _) => 1,
        Shape::DepInt(_, _) => 1,
        Shape::Not(_) => 1,
        Shape::Negative(_) => 1,
    }
}

/// Spends what an expression counts by itself, and begins it.
#[tactic(auto, using(crate::proofs::Turns::moves_spent))]
fn begin<'a, L: Ledger>(
    scene: &Scene<'_, 'a>,
    names: &Names<'a>,
    frames: &mut Stack<Frame<'a>>,
    expr: &'a Expr,
    steps: &mut Steps<L>,
) -> Result<Next<'a>, Stop>
    requires { HasRoomFor (places expr.now) frames.old }
    ensures moves { let sight = seen_from scene.now names.now in
        MachineMoves sight result (steps.new - steps.old)
        (then_resumed sight frames.old.items (meaning sight expr.now)) frames.new.items }
    ensures smaller { IfOk result (λ n. left_work n frames.new.items
        < work expr.now + frames_work frames.old.items) }
    ensures counted { steps.old ≤ steps.new }
    ensures room { IfOk result (λ n. HasRoom n frames.new) }
    ensures most { frames.new.most ≡ frames.old.most }
{
    steps.spend(own_units(scene, names, expr));
    open(scene, names, frames, expr)
}

/// On with an operator behind what stands left of it.
#[tactic(auto, using(crate::proofs::Turns::linking, crate::proofs::WorkLayers::link_left, crate::proofs::PlacesLayers::link_is))]
fn on_link<'a>(
    frames: &mut Stack<Frame<'a>>,
    link: &'a Link,
    left: Held<'a>,
) -> Result<Next<'a>, Stop>
    requires { HasRoomFor (places_of_link link.now) frames.old }
    ensures moves { (sight : Environment) → MachineMoves sight result 0
        (then_resumed sight frames.old.items
        (link_run left.entry (link_meant sight link.now))) frames.new.items }
    ensures smaller { IfOk result (λ n. left_work n frames.new.items
        < work_of_link link.now + 1 + frames_work frames.old.items) }
    ensures room { IfOk result (λ n. HasRoom n frames.new) }
    ensures most { frames.new.most ≡ frames.old.most }
{
    if decides(link.operator, &left) {
        return Ok(Next::Give(left));
    }
    let operation = Binary::Linked(link.operator);
    Ok(open_right(frames, operation, left, &link.right, link.place))
}

/// On with what stands left of operators.
#[tactic(auto, using(crate::proofs::Turns::links_first))]
fn on_chain<'a>(
    frames: &mut Stack<Frame<'a>>,
    links: &'a [Link],
    left: Held<'a>,
) -> Result<Next<'a>, Stop>
    requires { HasRoomFor (in_turn (map places_of_link links.now)) frames.old }
    ensures moves { (sight : Environment) → MachineMoves sight result 0
        (then_resumed sight frames.old.items
        (links_run (map (link_meant sight) links.now) left.entry)) frames.new.items }
    ensures smaller { IfOk result (λ n. left_work n frames.new.items
        < all_work (map work_of_link links.now) + frames_work frames.old.items) }
    ensures room { IfOk result (λ n. HasRoom n frames.new) }
    ensures most { frames.new.most ≡ frames.old.most }
{
    match links {
        [link, rest @ ..] => {
            frames.push(Frame::Chain(rest));
            on_link(frames, link, left)
        }
        [] => Ok(Next::Give(left)),
    }
}

/// On with a step into something.
#[tactic(auto, using(crate::proofs::Layers::stepping, crate::proofs::WorkLayers::step_left, crate::proofs::PlacesLayers::steps))]
fn on_step<'a>(
    scene: &Scene<'_, 'a>,
    frames: &mut Stack<Frame<'a>>,
    step: &'a Step,
    held: Held<'a>,
) -> Result<Next<'a>, Stop>
    requires { HasRoomFor (places_of_step step.now) frames.old }
    ensures moves { (names : List Named) → let sight = seen_from scene.now names in
        MachineMoves sight result 0
        (then_resumed sight frames.old.items
        ((step_meant sight step.now).run held.entry)) frames.new.items }
    ensures smaller { IfOk result (λ n. left_work n frames.new.items
        < work_of_step step.now + 1 + frames_work frames.old.items) }
    ensures room { IfOk result (λ n. HasRoom n frames.new) }
    ensures most { frames.new.most ≡ frames.old.most }
{
    match &step.access {
        Access::Field(name) => {
            let types = scene.contract.types.as_slice();
            let field = field_of(types, name.bytes.as_slice(), &held, step.place)?;
            Ok(Next::Give(field))
        }
        Access::Index(index) => { Ok(open_right(frames, Binary::Index, held, index, step.place)) }
    }
}

/// On with what steps lead into.
#[tactic(auto, using(crate::proofs::Turns::steps_first))]
fn on_path<'a>(
    scene: &Scene<'_, 'a>,
    frames: &mut Stack<Frame<'a>>,
    steps: &'a [Step],
    held: Held<'a>,
) -> Result<Next<'a>, Stop>
    requires { HasRoomFor (in_turn (map places_of_step steps.now)) frames.old }
    ensures moves { (names : List Named) → let sight = seen_from scene.now names in
        MachineMoves sight result 0
        (then_resumed sight frames.old.items
        (steps_run (map (step_meant sight) steps.now) held.entry)) frames.new.items }
    ensures smaller { IfOk result (λ n. left_work n frames.new.items
        < all_work (map work_of_step steps.now) + frames_work frames.old.items) }
    ensures room { IfOk result (λ n. HasRoom n frames.new) }
    ensures most { frames.new.most ≡ frames.old.most }
{
    match steps {
        [step, rest @ ..] => {
            frames.push(Frame::Path(rest));
            on_step(scene, frames, step, held)
        }
        [] => Ok(Next::Give(held)),
    }
}

/// On with the value of an item of a list.
#[tactic(auto, using(crate::proofs::Turns::item_added))]
fn on_item<'a>(
    scene: &Scene<'_, 'a>,
    frames: &mut Stack<Frame<'a>>,
    rest: &'a [Expr],
    items: Sequence<Shared<'a>>,
    item: Held<'a>,
    place: usize,
) -> Result<Next<'a>, Stop>
    requires { HasRoomFor (in_turn (map places rest.now)) frames.old }
    ensures moves { (sight : Environment) → MachineMoves sight result 0
        (items_resumed sight frames.old.items place (map (meaning sight) rest.now)
        (item_added place items.entry item.entry)) frames.new.items }
    ensures smaller { IfOk result (λ n. left_work n frames.new.items
        < all_work (map work rest.now) + frames_work frames.old.items) }
    ensures room { IfOk result (λ n. HasRoom n frames.new) }
    ensures most { frames.new.most ≡ frames.old.most }
{
    let items = with_item(items, item, place)?;
    on_items(scene, frames, rest, items, place)
}

/// Hands a value on to what is left to do with it.
fn resume<'a>(
    scene: &Scene<'_, 'a>,
    frames: &mut Stack<Frame<'a>>,
    frame: Frame<'a>,
    held: Held<'a>,
) -> Result<Next<'a>, Stop>
    requires { HasRoomFor (frame_places frame) frames.old }
    ensures moves { (names : List Named) → let sight = seen_from scene.now names in
        MachineMoves sight result 0
        (resumed sight (frame.entry ∷ frames.old.items) held.entry) frames.new.items }
    ensures smaller { IfOk result (λ n. left_work n frames.new.items
        < frame_work frame.entry + frames_work frames.old.items) }
    ensures room { IfOk result (λ n. HasRoom n frames.new) }
    ensures most { frames.new.most ≡ frames.old.most }
{
    match frame {
        Frame::Unary(operation, place) => {
            Ok(Next::Give(apply_unary(scene.alloc, operation, &held, place)?))
        }
        Frame::First(operation, right, place) => {
            Ok(open_right(frames, operation, held, right, place))
        }
        Frame::Second(operation, left, place) => {
            Ok(Next::Give(apply_binary(scene.alloc, operation, left, held, place)?))
        }
        Frame::Chain(links) => on_chain(frames, links, held),
        Frame::Path(steps) => on_path(scene, frames, steps, held),
        Frame::Items(rest, items, place) => { on_item(scene, frames, rest, items, held, place) }
    }
}

/// The value of an expression, with nothing left to do.
pub fn evaluate<'a, L: Ledger>(
    scene: &Scene<'_, 'a>,
    names: &Names<'a>,
    frames: &mut Stack<Frame<'a>>,
    expr: &'a Expr,
    steps: &mut Steps<L>,
) -> Result<Held<'a>, Stop>
    requires empty { frames.old.items ≡ [] }
    requires room { places expr.now ≤ frames.old.most }
    ensures value { let sight = seen_from scene.now names.now in
        Evaluates result (steps.new - steps.old) (meaning sight expr.now) frames.new.items }
    ensures counted { steps.old ≤ steps.new }
    ensures most { frames.new.most ≡ frames.old.most }
{
    let mut next = Next::Eval(expr);
    loop {
        next = match next {
            Next::Eval(expr) => begin(scene, names, frames, expr, steps)?,
            Next::Give(held) => match frames.pop() {
                Some(frame) => resume(scene, frames, frame, held)?,
                None => return Ok(held),
            },
        };
    }
}
