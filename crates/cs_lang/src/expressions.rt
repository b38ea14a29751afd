//! Reading expressions.
ghost use Rattle.std.specs.Prelude.{◌≡◌, length, true};
ghost use Rattle.cs_lang_token.specs.Answers.{ReaderGives};
ghost use Rattle.cs_lang_token.specs.Kinds.{is};
ghost use Rattle.cs_lang_token.specs.Grammar.{begins, mapped_at, pair_read};
ghost use Rattle.cs_lang_token.specs.Rules.{sign_at, name_token_at};
ghost use Rattle.cs_lang_token.specs.declared.kind.Kind.TheVariants as kind;
ghost use Rattle.cs_lang.specs.declared.tree.Rank.TheVariants as rank;
ghost use Rattle.cs_lang.specs.Trees.{tree, field_step};
ghost use Rattle.cs_lang.specs.Readers.{ReadsClosingSign, keyword_at, kinds_of, side_level, two_level, operators_at, comparisons_at, comparison_kinds, ranked, ranked_onward, ranked_turn, below, no_level, compared_level, signed_level, post_level, post_onward, post_turn, step_kinds, access_level, primary_level, worded_level, group_level, bracket_level, empty_level, len_level, sha256_level, concat_level, called_level, depint_level, items_level, items_onward, items_turn};

use crate::kinds::value_kind;
use crate::nodes::{boxed, grouped, with_comparison, with_link, with_step};
use crate::tree::{Access, Comparison, Expr, Operator, Rank, Shape};
use cs_base::Sequence;
use cs_lang_token::{Boxed, Cursor, Kind, MOST_OPERATORS, MOST_STEPS, Stop};
use std::alloc::Global;

/// Whether an operator of the rank follows.
fn at_rank(cursor: &Cursor<'_>, rank: Rank) -> bool
    ensures { result ≡ begins (is (kinds_of rank)) cursor.now }
{
    match rank {
        Rank::Or => cursor.at(Kind::Or),
        Rank::And => cursor.at(Kind::And),
        Rank::Sum => cursor.at_any(&[Kind::Plus, Kind::Minus]),
        Rank::Product => cursor.at_any(&[Kind::Star, Kind::Slash, Kind::Percent]),
    }
}

/// An operator of the rank, and its place.
#[tactic(auto, unfolding(crate::specs::Readers::operators_at))]
fn operator(cursor: &mut Cursor<'_>, rank: Rank) -> Result<(Operator, usize), Stop>
    ensures { ReaderGives result cursor.new (operators_at rank cursor.old) }
{
    match rank {
        Rank::Or => Ok((Operator::Or, cursor.sign(Kind::Or)?)),
        Rank::And => Ok((Operator::And, cursor.sign(Kind::And)?)),
        Rank::Sum => {
            if cursor.at(Kind::Plus) {
                return Ok((Operator::Plus, cursor.sign(Kind::Plus)?));
            }
            Ok((Operator::Minus, cursor.sign(Kind::Minus)?))
        }
        Rank::Product => {
            if cursor.at(Kind::Star) {
                return Ok((Operator::Times, cursor.sign(Kind::Star)?));
            }
            if cursor.at(Kind::Slash) {
                return Ok((Operator::Divide, cursor.sign(Kind::Slash)?));
            }
            Ok((Operator::Remainder, cursor.sign(Kind::Percent)?))
        }
    }
}

/// Whether a comparison follows.
fn at_comparison(cursor: &Cursor<'_>) -> bool
    ensures { result ≡ begins (is comparison_kinds) cursor.now }
{
    cursor.at_any(&[
        Kind::Equal,
        Kind::NotEqual,
        Kind::Less,
        Kind::LessOrEqual,
        Kind::Greater,
        Kind::GreaterOrEqual,
    ])
}

/// A comparison, and its place.
#[tactic(auto, unfolding(crate::specs::Readers::comparisons_at))]
fn comparison(cursor: &mut Cursor<'_>) -> Result<(Comparison, usize), Stop>
    ensures { ReaderGives result cursor.new (comparisons_at cursor.old) }
{
    if cursor.at(Kind::Equal) {
        return Ok((Comparison::Equal, cursor.sign(Kind::Equal)?));
    }
    if cursor.at(Kind::NotEqual) {
        return Ok((Comparison::NotEqual, cursor.sign(Kind::NotEqual)?));
    }
    if cursor.at(Kind::Less) {
        return Ok((Comparison::Less, cursor.sign(Kind::Less)?));
    }
    if cursor.at(Kind::LessOrEqual) {
        return Ok((Comparison::LessOrEqual, cursor.sign(Kind::LessOrEqual)?));
    }
    if cursor.at(Kind::Greater) {
        return Ok((Comparison::Greater, cursor.sign(Kind::Greater)?));
    }
    Ok((
        Comparison::GreaterOrEqual,
        cursor.sign(Kind::GreaterOrEqual)?,
    ))
}

/// What is held until the sign behind it was passed, and the place of the sign.
pub fn closed<T: Drop>(cursor: &mut Cursor<'_>, sign: Kind, held: T) -> Result<(T, usize), Stop>
    ensures { ReadsClosingSign result held cursor.new (sign_at sign true cursor.old) }
{
    let place = cursor.sign(sign)?;
    Ok((held, place))
}

/// An operand of a chain.
#[cycle(expression)]
#[tactic(auto, unfolding(crate::specs::Readers::below), using(crate::proofs::Onward::below_and, crate::proofs::Onward::below_product))]
fn operand(alloc: Global, cursor: &mut Cursor<'_>, left: u8, rank: Rank) -> Result<Expr, Stop>
    ensures { ReaderGives result cursor.new (below rank left cursor.old) }
{
    match rank {
        Rank::Or => chain(alloc, cursor, left, Rank::And),
        Rank::And => negated(alloc, cursor, left),
        Rank::Sum => chain(alloc, cursor, left, Rank::Product),
        Rank::Product => signed(alloc, cursor, left),
    }
}

/// Operands with operators between them, where so many more levels may be opened.
#[cycle(expression)]
#[tactic(auto, using(crate::proofs::Onward::ranked_is))]
pub fn chain(alloc: Global, cursor: &mut Cursor<'_>, left: u8, rank: Rank) -> Result<Expr, Stop>
    ensures { ReaderGives result cursor.new (ranked rank left cursor.old) }
{
    let first = operand(alloc, cursor, left, rank)?;
    rights(alloc, cursor, left, rank, first)
}

/// Operators and operands behind an expression.
#[cycle(expression)]
fn rights(
    alloc: Global,
    cursor: &mut Cursor<'_>,
    left: u8,
    rank: Rank,
    first: Expr,
) -> Result<Expr, Stop>
    ensures { ReaderGives result cursor.new (ranked_onward rank left MOST_OPERATORS first cursor.old) }
{
    let mut all = first;
    for _ in 0..MOST_OPERATORS {
        if !at_rank(cursor, rank) {
            return Ok(all);
        }
        all = right(alloc, cursor, left, rank, all)?;
    }
    if at_rank(cursor, rank) {
        return Err(Stop::Syntax);
    }
    Ok(all)
}

/// An operator and an operand behind an expression.
#[cycle(expression)]
#[tactic(auto, unfolding(crate::specs::Readers::ranked_turn))]
fn right(
    alloc: Global,
    cursor: &mut Cursor<'_>,
    left: u8,
    rank: Rank,
    all: Expr,
) -> Result<Expr, Stop>
    ensures { ReaderGives result cursor.new (ranked_turn rank left all cursor.old) }
{
    let ((operator, place), right) = link(alloc, cursor, left, rank)?;
    Ok(with_link(alloc, all, rank, operator, place, right)?)
}

/// An operator with its place, and its right operand.
#[cycle(expression)]
fn link(
    alloc: Global,
    cursor: &mut Cursor<'_>,
    left: u8,
    rank: Rank,
) -> Result<((Operator, usize), Expr), Stop>
    ensures { ReaderGives result cursor.new
        (pair_read (operators_at rank) (below rank left) cursor.old) }
{
    let operator = operator(cursor, rank)?;
    let right = operand(alloc, cursor, left, rank)?;
    Ok((operator, right))
}

/// A comparison, with any number of words `not` before it.
#[cycle(expression)]
#[tactic(auto, unfolding(crate::specs::Readers::no_level), using(crate::proofs::Levels::inside_negated_is))]
fn negated(alloc: Global, cursor: &mut Cursor<'_>, left: u8) -> Result<Expr, Stop>
    ensures { ReaderGives result cursor.new (no_level left cursor.old) }
{
    if !cursor.at(Kind::Not) {
        return compared(alloc, cursor, left);
    }
    let place = cursor.open(Kind::Not, left)?;
    let inner = negated(alloc, cursor, left - 1)?;
    Ok(Expr {
        first: place,
        place,
        shape: Shape::Not(Boxed::new(alloc, inner)?),
    })
}

/// A sum, or two that are compared.
#[cycle(expression)]
#[tactic(auto, unfolding(crate::specs::Readers::compared_level), using(crate::proofs::Onward::sum_is))]
fn compared(alloc: Global, cursor: &mut Cursor<'_>, left: u8) -> Result<Expr, Stop>
    ensures { ReaderGives result cursor.new (compared_level left cursor.old) }
{
    let first = chain(alloc, cursor, left, Rank::Sum)?;
    if !at_comparison(cursor) {
        return Ok(first);
    }
    let (comparison, second) = other_side(alloc, cursor, left)?;
    Ok(with_comparison(alloc, first, comparison, second)?)
}

/// A comparison with its place, and a sum.
#[cycle(expression)]
#[tactic(auto, unfolding(crate::specs::Readers::side_level), using(crate::proofs::Onward::sum_is))]
fn other_side(
    alloc: Global,
    cursor: &mut Cursor<'_>,
    left: u8,
) -> Result<((Comparison, usize), Expr), Stop>
    ensures { ReaderGives result cursor.new (side_level left cursor.old) }
{
    let comparison = comparison(cursor)?;
    let second = chain(alloc, cursor, left, Rank::Sum)?;
    Ok((comparison, second))
}

/// A primary expression with its steps, with any number of signs before it.
#[cycle(expression)]
#[tactic(auto, unfolding(crate::specs::Readers::signed_level), using(crate::proofs::Levels::inside_signed_is))]
fn signed(alloc: Global, cursor: &mut Cursor<'_>, left: u8) -> Result<Expr, Stop>
    ensures { ReaderGives result cursor.new (signed_level left cursor.old) }
{
    if !cursor.at(Kind::Minus) {
        return postfix(alloc, cursor, left);
    }
    let place = cursor.open(Kind::Minus, left)?;
    let inner = signed(alloc, cursor, left - 1)?;
    Ok(Expr {
        first: place,
        place,
        shape: Shape::Negative(Boxed::new(alloc, inner)?),
    })
}

/// A primary expression with its steps.
#[cycle(expression)]
#[tactic(auto, using(crate::proofs::Onward::post_is))]
fn postfix(alloc: Global, cursor: &mut Cursor<'_>, left: u8) -> Result<Expr, Stop>
    ensures { ReaderGives result cursor.new (post_level left cursor.old) }
{
    let first = primary(alloc, cursor, left)?;
    steps(alloc, cursor, left, first)
}

/// Whether a step follows.
fn at_step(cursor: &Cursor<'_>) -> bool
    ensures { result ≡ begins (is step_kinds) cursor.now }
{
    cursor.at_any(&[Kind::Dot, Kind::OpenList])
}

/// Steps behind an expression.
#[cycle(expression)]
fn steps(alloc: Global, cursor: &mut Cursor<'_>, left: u8, first: Expr) -> Result<Expr, Stop>
    ensures { ReaderGives result cursor.new (post_onward left MOST_STEPS first cursor.old) }
{
    let mut all = first;
    for _ in 0..MOST_STEPS {
        if !at_step(cursor) {
            return Ok(all);
        }
        all = step(alloc, cursor, left, all)?;
    }
    if at_step(cursor) {
        return Err(Stop::Syntax);
    }
    Ok(all)
}

/// A step behind an expression.
#[cycle(expression)]
#[tactic(auto, unfolding(crate::specs::Readers::post_turn))]
fn step(alloc: Global, cursor: &mut Cursor<'_>, left: u8, all: Expr) -> Result<Expr, Stop>
    ensures { ReaderGives result cursor.new (post_turn left all cursor.old) }
{
    let (place, access) = access(alloc, cursor, left)?;
    Ok(with_step(alloc, all, place, access)?)
}

/// A field's name or an index, and its place.
#[cycle(expression)]
#[tactic(auto, unfolding(crate::specs::Readers::access_level), using(crate::proofs::Levels::inside_whole_is))]
fn access(alloc: Global, cursor: &mut Cursor<'_>, left: u8) -> Result<(usize, Access), Stop>
    ensures { ReaderGives result cursor.new (access_level left cursor.old) }
{
    if cursor.at(Kind::Dot) {
        return field_access(alloc, cursor);
    }
    let place = cursor.open(Kind::OpenList, left)?;
    let index = chain(alloc, cursor, left - 1, Rank::Or)?;
    let (index, _closing) = closed(cursor, Kind::CloseList, index)?;
    Ok((place, Access::Index(index)))
}

/// A field's name behind a dot, and the place of the dot.
fn field_access(alloc: Global, cursor: &mut Cursor<'_>) -> Result<(usize, Access), Stop>
    ensures { ReaderGives result cursor.new
        (mapped_at field_step (pair_read (keyword_at kind.Dot) name_token_at) cursor.old) }
{
    let place = cursor.sign(Kind::Dot)?;
    let name = cursor.name(alloc)?;
    Ok((place, Access::Field(name)))
}

/// A primary expression.
#[cycle(expression)]
#[tactic(auto, unfolding(crate::specs::Readers::primary_level))]
fn primary(alloc: Global, cursor: &mut Cursor<'_>, left: u8) -> Result<Expr, Stop>
    ensures { ReaderGives result cursor.new (primary_level left cursor.old) }
{
    if cursor.at(Kind::Open) {
        return group(alloc, cursor, left);
    }
    if cursor.at(Kind::OpenList) {
        return bracket(alloc, cursor, left);
    }
    if cursor.at(Kind::Number) {
        let number = cursor.number()?;
        return Ok(leaf(number.place, Shape::Number(number.value)));
    }
    if cursor.at(Kind::Bytes) {
        let text = cursor.bytes(alloc)?;
        return Ok(leaf(text.place, Shape::Bytes(text.bytes)));
    }
    if cursor.at(Kind::Name) {
        let name = cursor.name(alloc)?;
        return Ok(leaf(name.place, Shape::Name(name.bytes)));
    }
    worded(alloc, cursor, left)
}

/// An expression whose own token is its first.
fn leaf(place: usize, shape: Shape) -> Expr
    ensures { result ≡ tree place place shape }
{
    Expr {
        first: place,
        place,
        shape,
    }
}

/// An expression that begins with a reserved word.
#[cycle(expression)]
#[tactic(auto, unfolding(crate::specs::Readers::worded_level))]
fn worded(alloc: Global, cursor: &mut Cursor<'_>, left: u8) -> Result<Expr, Stop>
    ensures { ReaderGives result cursor.new (worded_level left cursor.old) }
{
    if cursor.at(Kind::True) {
        let place = cursor.sign(Kind::True)?;
        return Ok(leaf(place, Shape::Truth(true)));
    }
    if cursor.at(Kind::False) {
        let place = cursor.sign(Kind::False)?;
        return Ok(leaf(place, Shape::Truth(false)));
    }
    if cursor.at(Kind::Empty) {
        return empty(alloc, cursor, left);
    }
    if cursor.at(Kind::Len) {
        return length_of(alloc, cursor, left);
    }
    if cursor.at(Kind::Sha256) {
        return hash_of(alloc, cursor, left);
    }
    if cursor.at(Kind::Concat) {
        return concat(alloc, cursor, left);
    }
    if cursor.at(Kind::Called) {
        return called(alloc, cursor, left);
    }
    depint(cursor, left)
}

/// An expression in parentheses.
#[cycle(expression)]
#[tactic(auto, unfolding(crate::specs::Readers::group_level), using(crate::proofs::Levels::inside_whole_is))]
fn group(alloc: Global, cursor: &mut Cursor<'_>, left: u8) -> Result<Expr, Stop>
    ensures { ReaderGives result cursor.new (group_level left cursor.old) }
{
    let opening = cursor.open(Kind::Open, left)?;
    let inner = chain(alloc, cursor, left - 1, Rank::Or)?;
    let (inner, closing) = closed(cursor, Kind::Close, inner)?;
    Ok(grouped(opening, inner, closing))
}

/// A list of expressions.
#[cycle(expression)]
#[tactic(auto, unfolding(crate::specs::Readers::bracket_level), using(crate::proofs::Levels::inside_items_is))]
fn bracket(alloc: Global, cursor: &mut Cursor<'_>, left: u8) -> Result<Expr, Stop>
    ensures { ReaderGives result cursor.new (bracket_level left cursor.old) }
{
    let place = cursor.open(Kind::OpenList, left)?;
    let items = items(alloc, cursor, left - 1)?;
    let (items, _closing) = closed(cursor, Kind::CloseList, items)?;
    Ok(leaf(place, Shape::List(items)))
}

/// The empty list of a kind.
#[tactic(auto, unfolding(crate::specs::Readers::empty_level))]
fn empty(alloc: Global, cursor: &mut Cursor<'_>, left: u8) -> Result<Expr, Stop>
    ensures { ReaderGives result cursor.new (empty_level left cursor.old) }
{
    let place = cursor.sign(Kind::Empty)?;
    let kind = value_kind(alloc, cursor, left)?;
    Ok(leaf(place, Shape::Empty(kind)))
}

/// The length of bytes or of a list.
#[cycle(expression)]
#[tactic(auto, unfolding(crate::specs::Readers::len_level), using(crate::proofs::Levels::inside_whole_is))]
fn length_of(alloc: Global, cursor: &mut Cursor<'_>, left: u8) -> Result<Expr, Stop>
    ensures { ReaderGives result cursor.new (len_level left cursor.old) }
{
    let place = cursor.sign(Kind::Len)?;
    cursor.open(Kind::Open, left)?;
    let inner = chain(alloc, cursor, left - 1, Rank::Or)?;
    let (inner, _closing) = closed(cursor, Kind::Close, inner)?;
    Ok(leaf(place, Shape::Len(Boxed::new(alloc, inner)?)))
}

/// The hash of bytes.
#[cycle(expression)]
#[tactic(auto, unfolding(crate::specs::Readers::sha256_level), using(crate::proofs::Levels::inside_whole_is))]
fn hash_of(alloc: Global, cursor: &mut Cursor<'_>, left: u8) -> Result<Expr, Stop>
    ensures { ReaderGives result cursor.new (sha256_level left cursor.old) }
{
    let place = cursor.sign(Kind::Sha256)?;
    cursor.open(Kind::Open, left)?;
    let inner = chain(alloc, cursor, left - 1, Rank::Or)?;
    let (inner, _closing) = closed(cursor, Kind::Close, inner)?;
    Ok(leaf(place, Shape::Sha256(Boxed::new(alloc, inner)?)))
}

/// Two that are joined.
#[cycle(expression)]
#[tactic(auto, unfolding(crate::specs::Readers::concat_level), using(crate::proofs::Levels::inside_two_is))]
fn concat(alloc: Global, cursor: &mut Cursor<'_>, left: u8) -> Result<Expr, Stop>
    ensures { ReaderGives result cursor.new (concat_level left cursor.old) }
{
    let place = cursor.sign(Kind::Concat)?;
    cursor.open(Kind::Open, left)?;
    let parts = two(alloc, cursor, left - 1)?;
    let ((front, (_comma, back)), _closing) = closed(cursor, Kind::Close, parts)?;
    let (front, back) = boxed(alloc, front, back)?;
    Ok(leaf(place, Shape::Concat(front, back)))
}

/// Two expressions with a comma between them, and its place.
#[cycle(expression)]
#[tactic(auto, unfolding(crate::specs::Readers::two_level))]
fn two(alloc: Global, cursor: &mut Cursor<'_>, left: u8) -> Result<(Expr, (usize, Expr)), Stop>
    ensures { ReaderGives result cursor.new (two_level left cursor.old) }
{
    let front = chain(alloc, cursor, left, Rank::Or)?;
    let back = behind_comma(alloc, cursor, left)?;
    Ok((front, back))
}

/// A comma's place, and an expression.
#[cycle(expression)]
fn behind_comma(alloc: Global, cursor: &mut Cursor<'_>, left: u8) -> Result<(usize, Expr), Stop>
    ensures { ReaderGives result cursor.new
        (pair_read (keyword_at kind.Comma) (ranked rank.Or left) cursor.old) }
{
    let comma = cursor.sign(Kind::Comma)?;
    let one = chain(alloc, cursor, left, Rank::Or)?;
    Ok((comma, one))
}

/// Whether a dep called a method.
#[tactic(auto, unfolding(crate::specs::Readers::called_level))]
fn called(alloc: Global, cursor: &mut Cursor<'_>, left: u8) -> Result<Expr, Stop>
    ensures { ReaderGives result cursor.new (called_level left cursor.old) }
{
    let place = cursor.sign(Kind::Called)?;
    cursor.open(Kind::Open, left)?;
    let dep = cursor.number()?;
    cursor.sign(Kind::Comma)?;
    let method = cursor.name(alloc)?;
    cursor.sign(Kind::Close)?;
    Ok(leaf(place, Shape::Called(dep.value, method)))
}

/// A returned value of a dep.
#[tactic(auto, unfolding(crate::specs::Readers::depint_level))]
fn depint(cursor: &mut Cursor<'_>, left: u8) -> Result<Expr, Stop>
    ensures { ReaderGives result cursor.new (depint_level left cursor.old) }
{
    let place = cursor.sign(Kind::DepInt)?;
    cursor.open(Kind::Open, left)?;
    let dep = cursor.number()?;
    cursor.sign(Kind::Comma)?;
    let value = cursor.number()?;
    cursor.sign(Kind::Close)?;
    Ok(leaf(place, Shape::DepInt(dep.value, value.value)))
}

/// Expressions with commas between them, where so many more levels may be opened.
#[cycle(expression)]
#[tactic(auto, using(crate::proofs::Onward::items_is))]
pub fn items(alloc: Global, cursor: &mut Cursor<'_>, left: u8) -> Result<Sequence<Expr>, Stop>
    ensures { ReaderGives result cursor.new (items_level left cursor.old) }
{
    let first = chain(alloc, cursor, left, Rank::Or)?;
    let mut all = Sequence::new(alloc);
    all.push(first)?;
    other_items(alloc, cursor, left, all)
}

/// Expressions behind the first, each behind a comma.
#[cycle(expression)]
fn other_items(
    alloc: Global,
    cursor: &mut Cursor<'_>,
    left: u8,
    first: Sequence<Expr>,
) -> Result<Sequence<Expr>, Stop>
    ensures { ReaderGives result cursor.new (items_onward left (length cursor.old) first cursor.old) }
{
    let mut all = first;
    for _ in 0..cursor.len() {
        if !cursor.at(Kind::Comma) {
            return Ok(all);
        }
        all = other_item(alloc, cursor, left, all)?;
    }
    if cursor.at(Kind::Comma) {
        return Err(Stop::Syntax);
    }
    Ok(all)
}

/// A comma and an expression behind others.
#[cycle(expression)]
#[tactic(auto, unfolding(crate::specs::Readers::items_turn))]
fn other_item(
    alloc: Global,
    cursor: &mut Cursor<'_>,
    left: u8,
    others: Sequence<Expr>,
) -> Result<Sequence<Expr>, Stop>
    ensures { ReaderGives result cursor.new (items_turn left others cursor.old) }
{
    let (_comma, one) = behind_comma(alloc, cursor, left)?;
    let mut all = others;
    all.push(one)?;
    Ok(all)
}
