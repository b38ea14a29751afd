//! Standard input and output. A call that a signal interrupts is made again.
ghost use Rattle.std.specs.Prelude.{◌≡◌, ◌≤◌, None, IfOk, length};

use cs_base::{Got, Put, Sink, Source};
use std::io::{self, ErrorKind, Read, Stdin, Stdout, Write};

/// Standard input.
#[derive(Drop)]
pub struct StandardInput {
    stdin: Stdin,
    faults: u64,
}

impl StandardInput {
    pub fn new(stdin: Stdin) -> Self {
        StandardInput { stdin, faults: 0 }
    }
}

fn read_some(stdin: &mut Stdin, buf: &mut [u8]) -> io::Result<usize>
    ensures { IfOk result (λ count. count ≤ length buf.new) }
{
    for _ in 0..u64::MAX {
        match stdin.read(buf) {
            Err(error) if error.kind() == ErrorKind::Interrupted => {}
            read => return read,
        }
    }
    Err(io::Error::from(ErrorKind::Interrupted))
}

impl Source for StandardInput {
    ghost left = { λ _. None };

    ghost faults = { λ s. s.faults };

    fn read(&mut self, buf: &mut [u8]) -> Got {
        match read_some(&mut self.stdin, buf) {
            Ok(0) => Got::End,
            Ok(count) => Got::Bytes(count),
            Err(_) => {
                self.faults = self.faults.saturating_add(1);
                Got::Failed
            }
        }
    }
}

/// Standard output.
#[derive(Drop)]
pub struct StandardOutput {
    stdout: Stdout,
    faults: u64,
}

impl StandardOutput {
    pub fn new(stdout: Stdout) -> Self {
        StandardOutput { stdout, faults: 0 }
    }
}

fn write_some(stdout: &mut Stdout, piece: &[u8]) -> io::Result<usize>
    ensures { IfOk result (λ count. count ≤ length piece.now) }
{
    for _ in 0..u64::MAX {
        match stdout.write(piece) {
            Err(error) if error.kind() == ErrorKind::Interrupted => {}
            written => return written,
        }
    }
    Err(io::Error::from(ErrorKind::Interrupted))
}

impl Sink for StandardOutput {
    ghost written = { λ _. None };

    ghost faults = { λ s. s.faults };

    fn write(&mut self, piece: &[u8]) -> Put {
        match write_some(&mut self.stdout, piece) {
            Ok(count) if count > 0 => Put::Took(count),
            // Taking nothing is a fault too.
            _ => {
                self.faults = self.faults.saturating_add(1);
                Put::Failed
            }
        }
    }
}
