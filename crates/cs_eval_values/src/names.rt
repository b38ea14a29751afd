//! Names, and what they stand for.
ghost use Rattle.std.specs.Prelude.{◌≡◌, ◌-◌, ◌<◌, [], length, map, take, replicate, slice_index, IfSome, IfOk, OnOk};
ghost use Rattle.cs_lang_names.specs.Numbering.{number_of};
ghost use Rattle.cs_eval_values.specs.Firsts.{numbers_of, first_place, with_first, without_first};
ghost use Rattle.std.specs.Option.{option_map};
ghost use Rattle.cs_eval_values.specs.Namings.{place_named, find_named, datum_named, kind_named, with_named, with_datum};

use crate::held::Held;
use cs_base::Memory;
use cs_lang_names::Numbers;
use cs_types_kinds::Kind;
use std::alloc::Global;
use std::marker::Model;

/// The most names that can be in sight: their places are kept in 16 bits. No text has so many.
const MOST_NAMES: usize = 65_535;

#[derive(Drop)]
struct Entry<'a> {
    name: &'a [u8],
    offset: usize,
    kind: Kind,
    held: Held<'a>,
}

/// The names in sight, in the order in which they came into it. With the numbers of the names of a
/// contract none of them is searched for.
#[derive(Drop)]
pub struct Names<'a> {
    entries: Vec<Entry<'a>>,
    numbers: Option<&'a Numbers>,
    /// By the number of a name: the place of its first entry and one more, or 0 where it has none.
    firsts: Vec<u16>,
}

impl<'a> Model for Names<'a> {
    ghost use Rattle.std.specs.Prelude.{List, map};
    ghost use Rattle.cs_eval_values.specs.Namings.{Named};
    ghost use Rattle.cs_eval_values.specs.NamedCode.{names_code};

    ghost Value = { List Named };

    ghost coded = { names_code };

    ghost use Rattle.cs_eval_values.specs.Entries.{named_of};

    ghost view = { λ s. map named_of s.entries.items };

    ghost use Rattle.cs_eval_values.specs.Firsts.{numbers_of, AreFirsts};

    ghost invariant = { λ s. AreFirsts (numbers_of s.numbers) s.firsts.items (map named_of s.entries.items) };
}

impl<'a> Names<'a> {
    ghost use Rattle.cs_eval_values.specs.Entries.{named_of};

    /// No names. Each is searched for where it is used.
    pub fn new(alloc: Global) -> Names<'a>
        ensures { result ≡ [] }
    {
        Names {
            entries: Vec::new(alloc),
            numbers: None,
            firsts: Vec::new(alloc),
        }
    }

    /// No names. Those that have a number are found by it.
    pub fn numbered(alloc: Global, numbers: &'a Numbers) -> Result<Names<'a>, Memory>
        ensures { IfOk result (λ names. names ≡ []) }
    {
        Ok(Names {
            entries: Vec::new(alloc),
            numbers: Some(numbers),
            firsts: zeros(alloc, numbers.len())?,
        })
    }

    /// The number of names.
    pub fn len(&self) -> usize
        ensures { result ≡ length self.now }
    {
        self.entries.len()
    }

    /// The place of the first entry of this name, or the number of entries.
    fn place(&self, name: &[u8], offset: usize) -> usize
        ensures { result ≡ place_named name.now self.now }
    {
        match number_in(self.numbers, name, offset) {
            Some(number) => first_of(self.firsts.as_slice(), number, self.entries.len()),
            None => self.walked(name),
        }
    }

    /// The same, without numbers.
    fn walked(&self, name: &[u8]) -> usize
        ensures { result ≡ place_named name.now self.now }
    {
        for (i, entry) in self.entries.as_slice().iter().enumerate() {
            if entry.name == name {
                return i;
            }
        }
        self.entries.len()
    }

    /// The first entry of this name.
    #[tactic(auto, using(crate::proofs::Naming::get_read))]
    fn named(&self, name: &[u8], offset: usize) -> Option<&Entry<'a>>
        ensures { option_map (λ e. named_of e.now) result ≡ find_named name.now self.now }
    {
        let place = self.place(name, offset);
        if place < self.entries.len() {
            return Some(&self.entries[place]);
        }
        None
    }

    /// What a name stands for, which stands at this offset of the text.
    pub fn find(&self, name: &[u8], offset: usize) -> Result<Option<Held<'a>>, Memory>
        ensures { IfOk result (λ found. found ≡ datum_named name.now self.now) }
    {
        match self.named(name, offset) {
            Some(entry) => Ok(Some(entry.held.share()?)),
            None => Ok(None),
        }
    }

    /// The kind of what a name stands for.
    pub fn kind(&self, name: &[u8], offset: usize) -> Option<Kind>
        ensures { result ≡ kind_named name.now self.now }
    {
        match self.named(name, offset) {
            Some(entry) => Some(entry.kind),
            None => None,
        }
    }

    /// Adds a name.
    pub fn add(
        &mut self,
        name: &'a [u8],
        offset: usize,
        kind: Kind,
        held: Held<'a>,
    ) -> Result<(), Memory>
        ensures { OnOk result (self.new ≡ with_named self.old name.now kind held.entry) }
    {
        let names = self.entries.len();
        if names >= MOST_NAMES {
            return Err(Memory);
        }
        let number = number_in(self.numbers, name, offset);
        self.entries.push(Entry {
            name,
            offset,
            kind,
            held,
        })?;
        note(&mut self.firsts, number, (names + 1) as u16);
        Ok(())
    }

    /// Puts something else under a name.
    pub fn set(&mut self, name: &[u8], offset: usize, held: Held<'a>)
        ensures { self.new ≡ with_datum name.now held.entry self.old }
    {
        let place = self.place(name, offset);
        Names::put(&mut self.entries, name, place, held);
    }

    /// Puts something else at the place of the first entry of a name, if there is one.
    #[tactic(auto, using(crate::proofs::Naming::set_entry))]
    fn put(entries: &mut Vec<Entry<'a>>, name: &[u8], place: usize, held: Held<'a>)
        requires { place ≡ place_named name.now (map named_of entries.old.items) }
        ensures { map named_of entries.new.items
            ≡ with_datum name.now held.entry (map named_of entries.old.items) }
    {
        if place < entries.len() {
            entries[place].held = held;
        }
    }

    /// Drops the last name.
    fn leave_last(&mut self)
        ensures { self.new ≡ take (length self.old - 1) self.old }
    {
        let Some(last) = self.entries.pop() else {
            return;
        };
        let number = number_in(self.numbers, last.name, last.offset);
        forget(&mut self.firsts, number, self.entries.len());
    }

    /// Drops all but so many of the first names.
    pub fn leave(&mut self, names: usize)
        ensures { self.new ≡ take names self.old }
    {
        while self.len() > names {
            self.leave_last();
        }
    }
}

/// The place that is kept beside a number, or the number of entries.
fn first_of(firsts: &[u16], number: usize, entries: usize) -> usize
    requires { number < length firsts.now }
    ensures { result ≡ first_place (slice_index firsts.now number) entries }
{
    let next = usize::from(firsts[number]);
    if next == 0 {
        return entries;
    }
    next - 1
}

/// Keeps where a name came into sight, if it wasn't there already.
fn note(firsts: &mut Vec<u16>, number: Option<usize>, next: u16)
    requires { IfSome number (λ n. n < length firsts.old.items) }
    ensures { firsts.new.items ≡ with_first number next firsts.old.items }
{
    if let Some(number) = number {
        if firsts[number] == 0 {
            firsts[number] = next;
        }
    }
}

/// Forgets where a name came into sight, if that was behind so many names.
fn forget(firsts: &mut Vec<u16>, number: Option<usize>, names: usize)
    requires { IfSome number (λ n. n < length firsts.old.items) }
    ensures { firsts.new.items ≡ without_first number names firsts.old.items }
{
    if let Some(number) = number {
        if names < usize::from(firsts[number]) {
            firsts[number] = 0;
        }
    }
}

/// So many zeros.
fn zeros(alloc: Global, count: usize) -> Result<Vec<u16>, Memory>
    ensures { IfOk result (λ made. made.items ≡ replicate count 0) }
{
    let mut made = Vec::new(alloc);
    made.resize(count, 0)?;
    Ok(made)
}

/// The number of a name that stands at this offset, where there are numbers and it has one.
fn number_in(numbers: Option<&Numbers>, name: &[u8], offset: usize) -> Option<usize>
    ensures { result ≡ number_of name.now (numbers_of numbers.entry) }
{
    numbers?.number(name, offset)
}
