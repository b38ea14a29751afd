//! Contract texts, read and accepted.
use cs_base::Memory;
use cs_lang::{Contract, LangError, parse};
use cs_types::{TypeError, accept};
use std::alloc::Global;

/// A statement, of 45 bytes.
const STATEMENT: &[u8] = b"if 1 < 2 and not (3 == 4 - 5 * len(x\"\")) { }\n";

/// The statements of a method.
const STATEMENTS: u8 = 20;

/// The end of a method, which fills it up to 1,024 bytes.
const FOOT: &[u8] =
    b"} } // a comment that fills the method up to 1,024 bytes: ------------------------------\n";

// A method of this number, of 1,024 bytes.
fn add_method(text: &mut Vec<u8>, number: u8) -> Result<(), Memory> {
    let digits = [b'0' + number / 10, b'0' + number % 10];
    text.extend_from_slice(b"method m")?;
    text.extend_from_slice(&digits)?;
    text.extend_from_slice(b" { procedure { } check {\n")?;
    for _ in 0..STATEMENTS {
        text.extend_from_slice(STATEMENT)?;
    }
    text.extend_from_slice(FOOT)?;
    Ok(())
}

// A text of so many methods, at most 100.
fn text(alloc: Global, methods: u8) -> Result<Vec<u8>, Memory> {
    let mut text = Vec::new(alloc);
    for number in 0..methods {
        add_method(&mut text, number)?;
    }
    Ok(text)
}

fn read(alloc: Global, text: &[u8]) -> Result<Option<Contract>, Memory> {
    match parse(alloc, text) {
        Ok(contract) => Ok(Some(contract)),
        Err(LangError::Memory) => Err(Memory),
        Err(_) => Ok(None),
    }
}

fn is_accepted(alloc: Global, contract: Contract) -> Result<bool, Memory> {
    match accept(alloc, contract) {
        Ok(_checked) => Ok(true),
        Err(TypeError::Memory) => Err(Memory),
        Err(_) => Ok(false),
    }
}

/// Reads a text of so many methods, at most 64, so many times: how often it was read.
pub fn read_often(alloc: Global, methods: u32, rounds: u32) -> Result<u32, Memory> {
    let text = text(alloc, methods.min(64) as u8)?;
    let mut done = 0u32;
    for _ in 0..rounds {
        if read(alloc, text.as_slice())?.is_some() {
            done = done.saturating_add(1);
        }
    }
    Ok(done)
}

/// Reads a text of so many methods, at most 64, and accepts it, so many times: how often it was accepted.
pub fn accept_often(alloc: Global, methods: u32, rounds: u32) -> Result<u32, Memory> {
    let text = text(alloc, methods.min(64) as u8)?;
    let mut done = 0u32;
    for _ in 0..rounds {
        if let Some(contract) = read(alloc, text.as_slice())? {
            if is_accepted(alloc, contract)? {
                done = done.saturating_add(1);
            }
        }
    }
    Ok(done)
}
