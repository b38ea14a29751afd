//! Trees of contract texts.
use cs_base::Sequence;
use cs_lang_token::{Boxed, Text};

/// The operators of chains.
#[derive(Clone, Copy, Debug, PartialEq, Eq)]
pub enum Operator {
    Or,
    And,
    Plus,
    Minus,
    Times,
    Divide,
    Remainder,
}

/// The chains of operators, the loosest first.
#[derive(Clone, Copy, Debug, PartialEq, Eq)]
pub enum Rank {
    Or,
    And,
    Sum,
    Product,
}

/// The comparisons of two sides.
#[derive(Clone, Copy, Debug, PartialEq, Eq)]
pub enum Comparison {
    Equal,
    NotEqual,
    Less,
    LessOrEqual,
    Greater,
    GreaterOrEqual,
}

/// What a value is.
#[derive(Drop)]
pub enum ValueKind {
    Int,
    Bool,
    Bytes,
    List(Boxed<ValueKind>),
}

/// An expression, with the offset of its first token as it is written, which may be a parenthesis,
/// and that of its own token.
#[cycle(tree)]
#[derive(Drop)]
pub struct Expr {
    pub first: usize,
    pub place: usize,
    pub shape: Shape,
}

/// What an expression is made of. Parentheses leave no trace in it.
#[cycle(tree)]
#[derive(Drop)]
pub enum Shape {
    Number(u64),
    Bytes(Sequence<u8>),
    Truth(bool),
    Name(Sequence<u8>),
    List(Sequence<Expr>),
    Empty(ValueKind),
    Len(Boxed<Expr>),
    Sha256(Boxed<Expr>),
    Concat(Boxed<Expr>, Boxed<Expr>),
    /// The number of a dep, and the name of a method.
    Called(u64, Text),
    /// The number of a dep, and the place of a returned value.
    DepInt(u64, u64),
    /// What the steps lead into, and the steps, of which there is one at least.
    Path(Boxed<Expr>, Sequence<Step>),
    Not(Boxed<Expr>),
    Negative(Boxed<Expr>),
    Compared(Comparison, Boxed<Expr>, Boxed<Expr>),
    /// The leftmost operand, and the operators with their right operands from the left, of which
    /// there is one at least. A chain in parentheses that is the left operand of a chain of its own
    /// rank is one with it.
    Chain(Rank, Boxed<Expr>, Sequence<Link>),
}

/// An operator and its right operand, with the offsets of the left operand's first token and of
/// the operator.
#[cycle(tree)]
#[derive(Drop)]
pub struct Link {
    pub operator: Operator,
    pub first: usize,
    pub place: usize,
    pub right: Expr,
}

/// A step into a value, with the offsets of the first token of what it leads into and of the step's
/// own token.
#[cycle(tree)]
#[derive(Drop)]
pub struct Step {
    pub first: usize,
    pub place: usize,
    pub access: Access,
}

/// Where a step leads.
#[cycle(tree)]
#[derive(Drop)]
pub enum Access {
    Field(Text),
    Index(Expr),
}

/// Statements in braces, with the offset of the closing brace.
#[cycle(block)]
#[derive(Drop)]
pub struct Block {
    pub statements: Sequence<Statement>,
    pub end: usize,
}

/// A statement, with the offset of its word.
#[cycle(block)]
#[derive(Drop)]
pub struct Statement {
    pub place: usize,
    pub action: Action,
}

/// What a statement does.
#[cycle(block)]
#[derive(Drop)]
pub enum Action {
    Let(Text, Expr),
    Set(Text, Expr),
    If(Expr, Block),
    IfElse(Expr, Block, Block),
    /// The name of each item, the list and what is done with an item.
    ForIn(Text, Expr, Block),
    /// The name of each number, how many there are from 0 and what is done with one.
    ForTo(Text, u64, Block),
    /// The slot, the type and the fields.
    Make(Text, Text, Sequence<Expr>),
    /// The names that are bound, the method and the arguments.
    Call(Sequence<Text>, Text, Sequence<Expr>),
    Answer(Expr),
}

/// A name and the kind of its values.
#[derive(Drop)]
pub struct Field {
    pub name: Text,
    pub kind: ValueKind,
}

/// A type of objects.
#[derive(Drop)]
pub struct TypeDef {
    pub name: Text,
    pub fields: Sequence<Field>,
}

/// A name for an object of a type, or for any number of them.
#[derive(Drop)]
pub struct Slot {
    pub name: Text,
    pub object: Text,
    pub many: bool,
}

/// A method: its procedure and its check, with the offset of its closing brace.
#[derive(Drop)]
pub struct Method {
    pub name: Text,
    pub consumes: Sequence<Slot>,
    pub reads: Sequence<Slot>,
    pub takes: Sequence<Field>,
    pub creates: Sequence<Slot>,
    pub returns: Sequence<Field>,
    pub procedure: Block,
    pub check: Block,
    pub end: usize,
}

/// The types and methods of a contract, in the order of its text. It has one method at least.
#[derive(Drop)]
pub struct ContractTree {
    pub types: Sequence<TypeDef>,
    pub methods: Sequence<Method>,
}
