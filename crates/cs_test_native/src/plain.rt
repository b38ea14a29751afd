//! Views in plain values, and what `hashlock` and `sum` say of them, written from the rules' documents.

/// Texts: two of which the hash is published, these hashes, and a hash without its last byte.
#[derive(Clone, Copy, Debug, PartialEq, Eq)]
pub enum Text {
    Empty,
    HashOfEmpty,
    Abc,
    HashOfAbc,
    Cut,
}

impl Text {
    /// Its bytes.
    pub fn bytes(self) -> &'static [u8] {
        match self {
            Text::Empty => b"".as_slice(),
            Text::HashOfEmpty => {
                b"\xe3\xb0\xc4\x42\x98\xfc\x1c\x14\x9a\xfb\xf4\xc8\x99\x6f\xb9\x24\x27\xae\x41\xe4\x64\x9b\x93\x4c\xa4\x95\x99\x1b\x78\x52\xb8\x55".as_slice()
            }
            Text::Abc => b"abc".as_slice(),
            Text::HashOfAbc => {
                b"\xba\x78\x16\xbf\x8f\x01\xcf\xea\x41\x41\x40\xde\x5d\xae\x22\x23\xb0\x03\x61\xa3\x96\x17\x7a\x9c\xb4\x10\xff\x61\xf2\x00\x15\xad".as_slice()
            }
            Text::Cut => {
                b"\xba\x78\x16\xbf\x8f\x01\xcf\xea\x41\x41\x40\xde\x5d\xae\x22\x23\xb0\x03\x61\xa3\x96\x17\x7a\x9c\xb4\x10\xff\x61\xf2\x00\x15".as_slice()
            }
        }
    }

    fn is_hash(self) -> bool {
        self == Text::HashOfEmpty || self == Text::HashOfAbc
    }

    fn hashes_to(self, other: Text) -> bool {
        match self {
            Text::Empty => other == Text::HashOfEmpty,
            Text::Abc => other == Text::HashOfAbc,
            _ => false,
        }
    }
}

/// A value.
#[derive(Clone, Copy, Debug, PartialEq, Eq)]
pub enum Plain {
    Number(i64),
    Said(Text),
}

/// An object of one value or two.
#[derive(Clone, Copy)]
pub struct Thing {
    pub type_name: &'static str,
    pub first: Plain,
    pub second: Option<Plain>,
}

/// A view; of what is read, returned and stood on there is one or none.
#[derive(Drop)]
pub struct View {
    pub method: &'static str,
    pub inputs: Vec<Thing>,
    pub reads: bool,
    pub parameters: Vec<Plain>,
    pub outputs: Vec<Thing>,
    pub returns: bool,
    pub stands: bool,
}

fn shown(thing: Thing) -> Option<i64> {
    match (thing.type_name, thing.first, thing.second) {
        ("open", Plain::Number(number), None) => Some(number),
        _ => None,
    }
}

fn held(thing: Thing) -> Option<(Text, i64)> {
    match (thing.type_name, thing.first, thing.second) {
        ("lock", Plain::Said(hash), Some(Plain::Number(number))) => Some((hash, number)),
        _ => None,
    }
}

// What is used up, made and given where there is one of each.
fn only(view: &View) -> Option<(Thing, Thing, Text)> {
    if view.inputs.len() != 1 || view.outputs.len() != 1 || view.parameters.len() != 1 {
        return None;
    }
    match view.parameters[0] {
        Plain::Said(text) => Some((view.inputs[0], view.outputs[0], text)),
        Plain::Number(_) => None,
    }
}

fn locks(input: Thing, output: Thing, given: Text) -> bool {
    match (shown(input), held(output)) {
        (Some(number), Some((hash, kept))) => number == kept && hash == given && given.is_hash(),
        _ => false,
    }
}

fn claims(input: Thing, output: Thing, given: Text) -> bool {
    match (held(input), shown(output)) {
        (Some((hash, kept)), Some(number)) => number == kept && given.hashes_to(hash),
        _ => false,
    }
}

/// What `hashlock` says.
pub fn hashlock_says(view: &View) -> bool {
    if view.reads || view.returns || view.stands {
        return false;
    }
    match only(view) {
        Some((input, output, given)) if view.method == "lock" => locks(input, output, given),
        Some((input, output, given)) if view.method == "claim" => claims(input, output, given),
        _ => false,
    }
}

fn purse(thing: Thing) -> Option<(i64, i64)> {
    match (thing.type_name, thing.first, thing.second) {
        ("purse", Plain::Number(amount), Some(Plain::Number(kind))) if amount >= 0 => {
            Some((amount, kind))
        }
        _ => None,
    }
}

// What there is of kind 0 and of kind 1; there are no others.
fn totals(things: &[Thing]) -> Option<(i128, i128)> {
    let mut zeros: i128 = 0;
    let mut ones: i128 = 0;
    for thing in things {
        let (amount, kind) = purse(*thing)?;
        if kind == 0 {
            zeros = zeros.wrapping_add(i128::from(amount));
        } else {
            ones = ones.wrapping_add(i128::from(amount));
        }
    }
    Some((zeros, ones))
}

/// What `sum` says.
pub fn sum_says(view: &View) -> bool {
    if view.method != "move" || view.parameters.len() != 0 || view.returns {
        return false;
    }
    match (
        totals(view.inputs.as_slice()),
        totals(view.outputs.as_slice()),
    ) {
        (Some(before), Some(after)) => before == after,
        _ => false,
    }
}
