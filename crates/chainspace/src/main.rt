//! The program: its words and the real outside, handed to the library.
#![tactic(auto)]

use cs_cli::{WordsError, words_or_status};
use cs_os::{Children, FileStore, StandardInput, StandardOutput, UdpLink};
use std::env;
use std::process::ExitCode;

fn main(rt: HostRuntime) -> ExitCode {
    let words = match words_or_status(rt.alloc(), read_words(&rt)) {
        Ok(words) => words,
        Err(status) => return ExitCode::from(status),
    };
    let mut input = StandardInput::new(rt.stdin());
    let mut output = StandardOutput::new(rt.stdout());
    let mut store = FileStore::new(&rt, rt.alloc());
    let mut link = UdpLink::new(&rt, rt.alloc());
    let mut children = Children::new(&rt, rt.alloc());
    ExitCode::from(cs_cli::run(
        rt.alloc(),
        &words,
        &mut input,
        &mut output,
        &mut store,
        &mut link,
        &mut children,
    ))
}

// The words behind the program's name.
fn read_words(rt: &HostRuntime) -> Result<Vec<String>, WordsError> {
    let mut words = Vec::new(rt.alloc());
    for word in env::args(rt)?.skip(1) {
        words.push(word)?;
    }
    Ok(words)
}
