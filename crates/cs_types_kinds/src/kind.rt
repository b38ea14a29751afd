//! Kinds of values.
ghost use Rattle.std.specs.Prelude.{◌≡◌};
ghost use Rattle.cs_types_kinds.specs.Kinds.{same_base, same_kind, list_kind_of, item_kind, is_list, joins, has_length, spelled_kind};

use cs_lang::ValueKind;
use cs_lang_token::MOST_LISTS;

/// What a value is that is no list.
#[derive(Clone, Copy)]
pub enum Base {
    Int,
    Bool,
    Bytes,
}

/// What an expression is: lists so deep of a base, one object of the type with this number, or any
/// number of such objects.
#[derive(Clone, Copy)]
pub enum Kind {
    Value(Base, u8),
    Object(usize),
    Objects(usize),
}

pub const INT: Kind = Kind::Value(Base::Int, 0);

pub const BOOL: Kind = Kind::Value(Base::Bool, 0);

pub const BYTES: Kind = Kind::Value(Base::Bytes, 0);

impl Base {
    /// Whether they are one.
    pub fn same(self, other: Base) -> bool
        ensures { result ≡ same_base self other }
    {
        match (self, other) {
            (Base::Int, Base::Int) => true,
            (Base::Bool, Base::Bool) => true,
            (Base::Bytes, Base::Bytes) => true,
            _ => false,
        }
    }
}

impl Kind {
    /// Whether they are one.
    pub fn same(self, other: Kind) -> bool
        ensures { result ≡ same_kind self other }
    {
        match (self, other) {
            (Kind::Value(base, lists), Kind::Value(other, more)) => {
                base.same(other) && lists == more
            }
            (Kind::Object(number), Kind::Object(other)) => number == other,
            (Kind::Objects(number), Kind::Objects(other)) => number == other,
            _ => false,
        }
    }

    /// The kind of a list of such values, where there is one.
    pub fn list_of(self) -> Option<Kind>
        ensures { result ≡ list_kind_of self }
    {
        match self {
            Kind::Value(base, lists) => {
                if lists < MOST_LISTS {
                    return Some(Kind::Value(base, lists + 1));
                }
                None
            }
            _ => None,
        }
    }

    /// The kind of its items, where it has any.
    pub fn item_of(self) -> Option<Kind>
        ensures { result ≡ item_kind self }
    {
        match self {
            Kind::Value(base, lists) => {
                if lists > 0 {
                    return Some(Kind::Value(base, lists - 1));
                }
                None
            }
            Kind::Objects(number) => Some(Kind::Object(number)),
            Kind::Object(_) => None,
        }
    }

    /// Whether it is a list of values.
    pub fn is_list(self) -> bool
        ensures { result ≡ is_list self }
    {
        match self {
            Kind::Value(_, lists) => lists > 0,
            _ => false,
        }
    }

    /// Whether two of it can be joined.
    pub fn joins(self) -> bool
        ensures { result ≡ joins self }
    {
        match self {
            Kind::Value(base, lists) => base.same(Base::Bytes) || lists > 0,
            _ => false,
        }
    }

    /// Whether it has a length.
    pub fn has_length(self) -> bool
        ensures { result ≡ has_length self }
    {
        match self {
            Kind::Objects(_) => true,
            other => other.joins(),
        }
    }
}

/// The kind that is spelled, or none where it nests too many lists.
#[tactic(auto, using(crate::proofs::KindLayers::kinds))]
pub fn kind_of(kind: &ValueKind) -> Option<Kind>
    ensures { result ≡ spelled_kind kind.now }
{
    match kind {
        ValueKind::Int => Some(INT),
        ValueKind::Bool => Some(BOOL),
        ValueKind::Bytes => Some(BYTES),
        ValueKind::List(items) => kind_of(items.get())?.list_of(),
    }
}
