//! A plain evaluator of checks, in ordinary Rust: it goes down the tree by calls, copies each value,
//! computes in 128 bits, and counts what it spends as it goes.
use crate::made::{Halt, Made, copies};
use crate::operators::{arithmetic, compared, hashed, item, items, joined, length};
use cs_base::{Memory, Sequence};
use cs_eval_values::View;
use cs_lang::{
    Access, Action, Block, ContractTree, Expr, Field, Link, Method, Operator, Rank, Shape, Slot,
    Statement, Step, Text, TypeDef,
};
use cs_tx_value::{Encoded, Object, Value};
use cs_types_kinds::{BOOL, BYTES, INT, Kind, field_kind, kind_of, type_number};
use std::alloc::Global;

/// A name, what it is, and what it stands for.
#[derive(Drop)]
struct Bound {
    name: Vec<u8>,
    kind: Option<Kind>,
    made: Made,
}

/// A check that runs.
#[derive(Drop)]
pub struct Plain<'a> {
    alloc: Global,
    contract: &'a ContractTree,
    view: &'a View,
    names: Vec<Bound>,
    spent: u64,
}

/// What a check said, and what it spent.
#[derive(Clone, Copy, Debug, PartialEq, Eq)]
pub struct Ran {
    pub says: bool,
    pub spent: u64,
}

/// Runs the check of a method on a view that fits it.
pub fn run(
    alloc: Global,
    contract: &ContractTree,
    method: &Method,
    view: &View,
) -> Result<Ran, Memory> {
    let mut plain = Plain {
        alloc,
        contract,
        view,
        names: Vec::new(alloc),
        spent: 0,
    };
    let ended = match plain.fill(method) {
        Ok(()) => plain.block(&method.check),
        Err(halt) => Err(halt),
    };
    let says = match ended {
        Err(Halt::Memory) => return Err(Memory),
        Err(Halt::Answer(says)) => says,
        _ => false,
    };
    Ok(Ran {
        says,
        spent: plain.spent,
    })
}

fn type_named<'a>(contract: &'a ContractTree, name: &[u8]) -> Option<&'a TypeDef> {
    let types = contract.types.as_slice();
    types.get(type_number(types, name)?)
}

impl<'a> Plain<'a> {
    fn spend(&mut self, units: u64) {
        self.spent = self.spent.saturating_add(units);
    }

    fn add(&mut self, name: &[u8], kind: Option<Kind>, made: Made) -> Result<(), Halt> {
        let name = Vec::from_slice(self.alloc, name)?;
        self.names.push(Bound { name, kind, made })?;
        Ok(())
    }

    fn slots(&mut self, slots: &[Slot], objects: &[Object]) -> Result<(), Halt> {
        let mut left = objects;
        for slot in slots {
            let types = self.contract.types.as_slice();
            let number = type_number(types, slot.object.bytes.as_slice()).ok_or(Halt::Trap)?;
            let name = slot.name.bytes.as_slice();
            if slot.many {
                let all = Made::Many(copies(self.alloc, left)?);
                self.add(name, Some(Kind::Objects(number)), all)?;
            } else if let [first, rest @ ..] = left {
                let one = Made::One(first.copy(self.alloc)?);
                self.add(name, Some(Kind::Object(number)), one)?;
                left = rest;
            }
        }
        Ok(())
    }

    fn fields(&mut self, fields: &[Field], values: &[Value]) -> Result<(), Halt> {
        for (field, value) in fields.iter().zip(values) {
            let made = Made::Plain(value.copy(self.alloc)?);
            self.add(field.name.bytes.as_slice(), kind_of(&field.kind), made)?;
        }
        Ok(())
    }

    fn fill(&mut self, method: &Method) -> Result<(), Halt> {
        let view = self.view;
        self.slots(method.consumes.as_slice(), view.inputs.as_slice())?;
        self.slots(method.reads.as_slice(), view.reads.as_slice())?;
        self.fields(method.takes.as_slice(), view.params.as_slice())?;
        self.slots(method.creates.as_slice(), view.outputs.as_slice())?;
        self.fields(method.returns.as_slice(), view.returns.as_slice())
    }

    fn named(&self, name: &[u8]) -> Option<&Bound> {
        self.names
            .iter()
            .find(|bound| bound.name.as_slice() == name)
    }

    fn known(&self, name: &[u8]) -> Result<Made, Halt> {
        match self.named(name) {
            Some(bound) => bound.made.copied(self.alloc),
            None => Err(Halt::Trap),
        }
    }

    /// The kind of an expression, from those of its parts.
    fn kind(&self, expr: &Expr) -> Option<Kind> {
        match &expr.shape {
            Shape::Number(_) => Some(INT),
            Shape::Bytes(_) => Some(BYTES),
            Shape::Truth(_) => Some(BOOL),
            Shape::Name(name) => self.named(name.as_slice())?.kind,
            Shape::List(parts) => self.kind(parts.as_slice().first()?)?.list_of(),
            Shape::Empty(kind) => kind_of(kind),
            Shape::Len(_) => Some(INT),
            Shape::Sha256(_) => Some(BYTES),
            Shape::Concat(front, _) => self.kind(front.get()),
            Shape::Called(_, _) => Some(BOOL),
            Shape::DepInt(_, _) => Some(INT),
            Shape::Path(start, steps) => {
                self.steps_kind(self.kind(start.get())?, steps.as_slice())
            }
            Shape::Not(_) => Some(BOOL),
            Shape::Negative(_) => Some(INT),
            Shape::Compared(_, _, _) => Some(BOOL),
            Shape::Chain(Rank::Or, _, _) => Some(BOOL),
            Shape::Chain(Rank::And, _, _) => Some(BOOL),
            Shape::Chain(_, _, _) => Some(INT),
        }
    }

    fn steps_kind(&self, start: Kind, steps: &[Step]) -> Option<Kind> {
        let mut kind = start;
        for step in steps {
            kind = self.step_kind(kind, step)?;
        }
        Some(kind)
    }

    fn step_kind(&self, kind: Kind, step: &Step) -> Option<Kind> {
        match (&step.access, kind) {
            (Access::Field(name), Kind::Object(number)) => {
                field_kind(self.contract, number, name).ok()
            }
            (Access::Field(_), _) => None,
            (Access::Index(_), kind) => kind.item_of(),
        }
    }

    /// What an expression counts by itself.
    fn units(&self, expr: &Expr) -> u64 {
        match &expr.shape {
            Shape::Sha256(_) => 17,
            Shape::Concat(_, _) => 17,
            Shape::Compared(_, left, _) => match self.kind(left.get()) {
                Some(kind) => if kind.same(BYTES) { 17 } else { 1 },
                None => 1,
            },
            Shape::Path(_, steps) => steps.len() as u64,
            Shape::Chain(_, _, links) => links.len() as u64,
            _ => 1,
        }
    }

    fn called(&self, dep: u64, method: &[u8]) -> bool {
        let Ok(dep) = usize::try_from(dep) else {
            return false;
        };
        match self.view.deps.as_slice().get(dep) {
            Some(dep) => { dep.contract == self.view.contract && dep.method.as_slice() == method }
            None => false,
        }
    }

    fn returned(&self, dep: u64, place: u64) -> Result<Made, Halt> {
        let dep = usize::try_from(dep).map_err(|_| Halt::Trap)?;
        let place = usize::try_from(place).map_err(|_| Halt::Trap)?;
        let dep = self.view.deps.as_slice().get(dep).ok_or(Halt::Trap)?;
        match dep.returns.as_slice().get(place) {
            Some(Value::Int(number)) => Made::int(i128::from(*number)),
            _ => Err(Halt::Trap),
        }
    }

    fn field(&self, made: &Made, name: &[u8]) -> Result<Made, Halt> {
        let Made::One(object) = made else {
            return Err(Halt::Trap);
        };
        let Some(typedef) = type_named(self.contract, object.type_name.as_slice()) else {
            return Err(Halt::Trap);
        };
        let fields = typedef.fields.as_slice();
        for (field, value) in fields.iter().zip(object.values.as_slice()) {
            if field.name.bytes.as_slice() == name {
                return Ok(Made::Plain(value.copy(self.alloc)?));
            }
        }
        Err(Halt::Trap)
    }

    #[cycle(plain)]
    fn link(&mut self, left: Made, link: &Link) -> Result<Made, Halt> {
        match link.operator {
            Operator::Or => {
                if left.as_truth()? {
                    return Ok(left);
                }
                Ok(Made::truth(self.value(&link.right)?.as_truth()?))
            }
            Operator::And => {
                if !left.as_truth()? {
                    return Ok(left);
                }
                Ok(Made::truth(self.value(&link.right)?.as_truth()?))
            }
            operator => {
                let x = left.as_int()?;
                let y = self.value(&link.right)?.as_int()?;
                arithmetic(operator, x, y)
            }
        }
    }

    #[cycle(plain)]
    fn links(&mut self, left: Made, links: &[Link]) -> Result<Made, Halt> {
        let mut made = left;
        for link in links {
            made = self.link(made, link)?;
        }
        Ok(made)
    }

    #[cycle(plain)]
    fn step(&mut self, made: Made, step: &Step) -> Result<Made, Halt> {
        match &step.access {
            Access::Field(name) => self.field(&made, name.bytes.as_slice()),
            Access::Index(index) => {
                let place = self.value(index)?.as_int()?;
                item(self.alloc, &made, place)
            }
        }
    }

    #[cycle(plain)]
    fn steps(&mut self, start: Made, steps: &[Step]) -> Result<Made, Halt> {
        let mut made = start;
        for step in steps {
            made = self.step(made, step)?;
        }
        Ok(made)
    }

    #[cycle(plain)]
    fn list(&mut self, parts: &[Expr]) -> Result<Made, Halt> {
        let mut values = Vec::new(self.alloc);
        for part in parts {
            values.push(self.value(part)?.into_value()?)?;
        }
        Made::list(values)
    }

    #[cycle(plain)]
    fn value(&mut self, expr: &Expr) -> Result<Made, Halt> {
        let units = self.units(expr);
        self.spend(units);
        match &expr.shape {
            Shape::Number(number) => Made::int(i128::from(*number)),
            Shape::Bytes(text) => Ok(Made::bytes(Vec::from_slice(self.alloc, text.as_slice())?)),
            Shape::Truth(truth) => Ok(Made::truth(*truth)),
            Shape::Name(name) => self.known(name.as_slice()),
            Shape::List(parts) => self.list(parts.as_slice()),
            Shape::Empty(_) => Ok(Made::Plain(Value::List(Sequence::new(self.alloc)))),
            Shape::Len(part) => length(&self.value(part.get())?),
            Shape::Sha256(part) => {
                let made = self.value(part.get())?;
                hashed(self.alloc, made)
            }
            Shape::Concat(front, back) => {
                let front = self.value(front.get())?;
                joined(front, self.value(back.get())?)
            }
            Shape::Called(dep, method) => {
                Ok(Made::truth(self.called(*dep, method.bytes.as_slice())))
            }
            Shape::DepInt(dep, place) => self.returned(*dep, *place),
            Shape::Path(start, steps) => {
                let made = self.value(start.get())?;
                self.steps(made, steps.as_slice())
            }
            Shape::Not(part) => Ok(Made::truth(!self.value(part.get())?.as_truth()?)),
            Shape::Negative(part) => { Made::int(self.value(part.get())?.as_int()?.wrapping_neg()) }
            Shape::Compared(comparison, left, right) => {
                let left = self.value(left.get())?;
                compared(*comparison, left, self.value(right.get())?)
            }
            Shape::Chain(_, start, links) => {
                let made = self.value(start.get())?;
                self.links(made, links.as_slice())
            }
        }
    }

    fn holds(&mut self, condition: &Expr) -> Result<bool, Halt> {
        self.value(condition)?.as_truth()
    }

    fn item_kind(&self, list: &Expr) -> Option<Kind> {
        self.kind(list)?.item_of()
    }

    fn set(&mut self, name: &[u8], made: Made) {
        for bound in self.names.as_mut_slice() {
            if bound.name.as_slice() == name {
                bound.made = made;
                return;
            }
        }
    }

    #[cycle(plain_block)]
    fn turn(
        &mut self,
        name: &[u8],
        kind: Option<Kind>,
        made: Made,
        each: &Block,
    ) -> Result<(), Halt> {
        self.spend(1);
        let before = self.names.len();
        self.add(name, kind, made)?;
        self.block(each)?;
        self.names.truncate(before);
        Ok(())
    }

    #[cycle(plain_block)]
    fn for_in(
        &mut self,
        name: &Text,
        kind: Option<Kind>,
        made: Made,
        each: &Block,
    ) -> Result<(), Halt> {
        for item in items(self.alloc, made)? {
            self.turn(name.bytes.as_slice(), kind, item, each)?;
        }
        Ok(())
    }

    #[cycle(plain_block)]
    fn for_to(&mut self, name: &Text, count: u64, each: &Block) -> Result<(), Halt> {
        for number in 0..count {
            let made = Made::int(i128::from(number))?;
            self.turn(name.bytes.as_slice(), Some(INT), made, each)?;
        }
        Ok(())
    }

    #[cycle(plain_block)]
    fn statement(&mut self, statement: &Statement) -> Result<(), Halt> {
        self.spend(1);
        match &statement.action {
            Action::Let(name, value) => {
                let kind = self.kind(value);
                let made = self.value(value)?;
                self.add(name.bytes.as_slice(), kind, made)
            }
            Action::Set(name, value) => {
                let made = self.value(value)?;
                self.set(name.bytes.as_slice(), made);
                Ok(())
            }
            Action::If(condition, block) => {
                if self.holds(condition)? {
                    return self.block(block);
                }
                Ok(())
            }
            Action::IfElse(condition, block, other) => {
                if self.holds(condition)? {
                    return self.block(block);
                }
                self.block(other)
            }
            Action::ForIn(name, list, each) => {
                let kind = self.item_kind(list);
                let made = self.value(list)?;
                self.for_in(name, kind, made, each)
            }
            Action::ForTo(name, count, each) => self.for_to(name, *count, each),
            Action::Make(_, _, _) => Err(Halt::Trap),
            Action::Call(_, _, _) => Err(Halt::Trap),
            Action::Answer(value) => Err(Halt::Answer(self.holds(value)?)),
        }
    }

    #[cycle(plain_block)]
    fn block(&mut self, block: &Block) -> Result<(), Halt> {
        let before = self.names.len();
        for statement in block.statements.as_slice() {
            self.statement(statement)?;
        }
        self.names.truncate(before);
        Ok(())
    }
}
