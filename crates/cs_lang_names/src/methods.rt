//! The names of methods.
use crate::blocks::{block, text};
use crate::numbers::Numbers;
use cs_base::Memory;
use cs_lang::{ContractTree, Field, Method, Slot};
use std::alloc::Global;

fn slots(alloc: Global, slots: &[Slot], numbers: &mut Numbers) -> Result<(), Memory> {
    for slot in slots {
        text(alloc, &slot.name, numbers)?;
    }
    Ok(())
}

fn fields(alloc: Global, fields: &[Field], numbers: &mut Numbers) -> Result<(), Memory> {
    for field in fields {
        text(alloc, &field.name, numbers)?;
    }
    Ok(())
}

fn method(alloc: Global, method: &Method, numbers: &mut Numbers) -> Result<(), Memory> {
    slots(alloc, method.consumes.as_slice(), numbers)?;
    slots(alloc, method.reads.as_slice(), numbers)?;
    fields(alloc, method.takes.as_slice(), numbers)?;
    slots(alloc, method.creates.as_slice(), numbers)?;
    fields(alloc, method.returns.as_slice(), numbers)?;
    block(alloc, &method.procedure, numbers)?;
    block(alloc, &method.check, numbers)
}

impl Numbers {
    /// The names of a contract, with the offsets at which they stand.
    pub fn of(alloc: Global, contract: &ContractTree) -> Result<Numbers, Memory> {
        let length = match contract.methods.as_slice().last() {
            Some(last) => last.end,
            None => 0,
        };
        let mut numbers = Numbers::new(alloc, length)?;
        for one in contract.methods.as_slice() {
            method(alloc, one, &mut numbers)?;
        }
        Ok(numbers)
    }
}
