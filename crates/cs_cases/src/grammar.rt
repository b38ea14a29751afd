//! Reading the line of a case.
ghost use Rattle.std.specs.Prelude.{◌≡◌, map, IfOk};
ghost use Rattle.cs_lang_token.specs.Answers.{ReaderGives};
ghost use Rattle.cs_lang_token.specs.declared.kind.Kind.TheVariants as kinds;
ghost use Rattle.cs_lang_token.specs.declared.limits.TheConstants.{MOST_ITEMS};
ghost use Rattle.cs_cases.specs.Grammar.{row_onward, row_at, one_more_at, object_level, objects_level, keyed, keyed_level, references_level, wanted_level, returns_level, outcome_level, arrow_at, asked_level, case_level};

use crate::case::{Asked, Case, Wanted};
use crate::values::values;
use cs_base::{Memory, Sequence};
use cs_lang_token::{Cursor, Kind, MOST_ITEMS, Stop};
use cs_tx_value::{Digest, Name, Object, Value};
use std::alloc::Global;

// An object of the contract.
#[tactic(auto, unfolding(crate::specs::Grammar::object_level))]
fn object(alloc: Global, id: &Digest, cursor: &mut Cursor<'_>) -> Result<Object, Stop>
    ensures { ReaderGives result cursor.new (object_level id.now cursor.old) }
{
    let name = cursor.name(alloc)?;
    let values = values(alloc, cursor)?;
    Ok(Object {
        contract: *id,
        type_name: Name::from_vec(name.bytes.into_vec()),
        values,
    })
}

// A comma and an object behind others.
fn one_more(
    alloc: Global,
    id: &Digest,
    cursor: &mut Cursor<'_>,
    others: Sequence<Object>,
) -> Result<Sequence<Object>, Stop>
    ensures { ReaderGives result cursor.new (one_more_at (object_level id.now) others cursor.old) }
{
    let mut all = others;
    cursor.sign(Kind::Comma)?;
    all.push(object(alloc, id, cursor)?)?;
    Ok(all)
}

// Objects behind the first, each behind a comma, up to the closing parenthesis.
fn row_behind(
    alloc: Global,
    id: &Digest,
    cursor: &mut Cursor<'_>,
    first: Sequence<Object>,
) -> Result<Sequence<Object>, Stop>
    ensures { ReaderGives result cursor.new
        (row_onward kinds.Close (object_level id.now) MOST_ITEMS first cursor.old) }
{
    let mut all = first;
    for _ in 0..MOST_ITEMS {
        if cursor.at(Kind::Close) {
            cursor.sign(Kind::Close)?;
            return Ok(all);
        }
        all = one_more(alloc, id, cursor, all)?;
    }
    Err(Stop::Syntax)
}

// Objects up to the closing parenthesis.
fn row(alloc: Global, id: &Digest, cursor: &mut Cursor<'_>) -> Result<Sequence<Object>, Stop>
    ensures { ReaderGives result cursor.new (row_at kinds.Close (object_level id.now) cursor.old) }
{
    let mut all = Sequence::new(alloc);
    if cursor.at(Kind::Close) {
        cursor.sign(Kind::Close)?;
        return Ok(all);
    }
    all.push(object(alloc, id, cursor)?)?;
    row_behind(alloc, id, cursor, all)
}

// Objects in parentheses.
fn objects(alloc: Global, id: &Digest, cursor: &mut Cursor<'_>) -> Result<Sequence<Object>, Stop>
    ensures { ReaderGives result cursor.new (objects_level id.now cursor.old) }
{
    cursor.sign(Kind::Open)?;
    row(alloc, id, cursor)
}

// The objects beside the key that all have.
fn beside_keys(
    alloc: Global,
    objects: Sequence<Object>,
) -> Result<Sequence<(Digest, Object)>, Memory>
    ensures { IfOk result (λ all. all ≡ map keyed objects) }
{
    let mut all = Sequence::new(alloc);
    for object in objects.into_vec() {
        all.push(([0; 32], object))?;
    }
    Ok(all)
}

// Objects in parentheses, each beside that key.
fn keyed(
    alloc: Global,
    id: &Digest,
    cursor: &mut Cursor<'_>,
) -> Result<Sequence<(Digest, Object)>, Stop>
    ensures { ReaderGives result cursor.new (keyed_level id.now cursor.old) }
{
    let all = objects(alloc, id, cursor)?;
    match beside_keys(alloc, all) {
        Ok(all) => Ok(all),
        Err(Memory) => Err(Stop::Memory),
    }
}

// The references, where there are some.
fn references(
    alloc: Global,
    id: &Digest,
    cursor: &mut Cursor<'_>,
) -> Result<Sequence<(Digest, Object)>, Stop>
    ensures { ReaderGives result cursor.new (references_level id.now cursor.old) }
{
    if !cursor.at(Kind::Plus) {
        return Ok(Sequence::new(alloc));
    }
    cursor.sign(Kind::Plus)?;
    keyed(alloc, id, cursor)
}

// What the check is to say.
fn wanted(alloc: Global, cursor: &mut Cursor<'_>) -> Result<Wanted, Stop>
    ensures { ReaderGives result cursor.new (wanted_level cursor.old) }
{
    if cursor.len() == 0 {
        return Ok(Wanted::Yes);
    }
    let word = cursor.name(alloc)?;
    if word.bytes.as_slice() == b"no".as_slice() {
        return Ok(Wanted::No);
    }
    if word.bytes.as_slice() == b"trap".as_slice() {
        return Ok(Wanted::Trap);
    }
    Err(Stop::Syntax)
}

// The returned values, where there are some.
fn returns(alloc: Global, cursor: &mut Cursor<'_>) -> Result<Sequence<Value>, Stop>
    ensures { ReaderGives result cursor.new (returns_level cursor.old) }
{
    if !cursor.at(Kind::Returns) {
        return Ok(Sequence::new(alloc));
    }
    cursor.sign(Kind::Returns)?;
    values(alloc, cursor)
}

// What stands behind the arrow.
fn outcome(alloc: Global, id: &Digest, cursor: &mut Cursor<'_>) -> Result<Asked, Stop>
    ensures { ReaderGives result cursor.new (outcome_level id.now cursor.old) }
{
    if !cursor.at(Kind::Open) {
        return Ok(Asked::Made(wanted(alloc, cursor)?));
    }
    let outputs = objects(alloc, id, cursor)?;
    let returned = returns(alloc, cursor)?;
    let wanted = wanted(alloc, cursor)?;
    Ok(Asked::Given(outputs, returned, wanted))
}

// Passes an arrow.
fn arrow(cursor: &mut Cursor<'_>) -> Result<usize, Stop>
    ensures { ReaderGives result cursor.new (arrow_at cursor.old) }
{
    cursor.sign(Kind::Minus)?;
    cursor.sign(Kind::Greater)
}

// What is asked.
fn asked(alloc: Global, id: &Digest, cursor: &mut Cursor<'_>) -> Result<Asked, Stop>
    ensures { ReaderGives result cursor.new (asked_level id.now cursor.old) }
{
    if cursor.len() == 0 {
        return Ok(Asked::Shown);
    }
    arrow(cursor)?;
    outcome(alloc, id, cursor)
}

/// A case of the contract with this id.
#[tactic(auto, unfolding(crate::specs::Grammar::case_level))]
pub fn case(alloc: Global, id: &Digest, cursor: &mut Cursor<'_>) -> Result<Case, Stop>
    ensures { ReaderGives result cursor.new (case_level id.now cursor.old) }
{
    let method = cursor.name(alloc)?;
    let inputs = keyed(alloc, id, cursor)?;
    let references = references(alloc, id, cursor)?;
    let arguments = values(alloc, cursor)?;
    let asked = asked(alloc, id, cursor)?;
    Ok(Case {
        method: Name::from_vec(method.bytes.into_vec()),
        inputs,
        references,
        arguments,
        asked,
    })
}
