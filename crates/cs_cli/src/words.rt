//! The words of the command line: their grammar, and what stands for words that were not read.
ghost use Rattle.std.specs.Prelude.{◌≡◌, ◌↔◌, [], IfOk, IsOkAnd};
ghost use Rattle.std.specs.IoError.{error_kind};
ghost use Rattle.std.specs.declared.io.ErrorKind.TheVariants.{InvalidData};
ghost use Rattle.cs_cli.specs.Words.{command_of_word, command_of, plain_command, plain_contract, plain_mode, topic_called, file_called, contract_mode_from, mode_from, with_contract_option, with_option, texts_of};
ghost use Rattle.cs_cli.specs.declared.words.WordsError.TheVariants.{NotText, Memory};

use crate::deployments::{Deployment, is_file, read_deployment, reads_master};
use crate::numbers::read_simulation;
use crate::report::ContractMode;
use crate::transactions::read_numbered;
use crate::wallets::read_wallet;
use cs_help::{Topic, topic_of};
use cs_replay::Mode;
use cs_wallet::WalletCall;
use std::alloc::{AllocFailed, Global};
use std::io;
use std::io::ErrorKind;

/// What the words call for.
#[derive(Clone, Copy, Debug, PartialEq, Eq)]
pub enum Command {
    /// Reads a schedule from the input, plays it, and prints its lines; those of a trace and a dump
    /// too where the mode asks for them.
    Replay(Mode),
    /// Reads a contract from the input, and tells what it is, or what its first fault is, as the
    /// mode asks for.
    Contract(ContractMode),
    /// Reads cases from the input, and tells what the contract of the file at this place among the
    /// words makes of each, and what its checks say.
    Try { file: usize },
    /// Reads a head and a proof from the input, and says what the proof shows to who trusts the head.
    Verify,
    /// Reads a dump from the input, and says whether it is sound, or the first rule that it breaks.
    Audit,
    /// Plays the schedule of a number and a size, and prints the numbers of what was played.
    Simulate { number: u64, size: u32 },
    /// Prints the text of all commands, or of one.
    Help(Topic),
    /// Prints the program's version.
    Version,
    /// Reads a master key from the input, and saves the key files that it gives the nodes and clients
    /// of the site file at this place among the words.
    ReadKeys { site: usize },
    /// Does what is called for with the wallet of the file at place 2 among the words.
    Wallet(WalletCall),
    /// Reads a transaction in words from the input, and tells what it is, and its session of this number.
    Transaction(Option<u64>),
    /// Runs a node or a client, or saves key files, as the files among the words say.
    Deploy(Deployment),
}

/// Why the words of the command line were not read.
#[derive(Clone, Copy, Debug, PartialEq, Eq)]
pub enum WordsError {
    /// A word is no text.
    NotText,
    /// There was not enough memory.
    Memory,
}

impl From<io::Error> for WordsError {
    // `env::args` answers `InvalidData` at a word that is no text, and any other kind for want of
    // memory alone.
    ghost from_gives = { λ error e. (e ≡ NotText) ↔ (error_kind error ≡ InvalidData) };

    fn from(error: io::Error) -> WordsError {
        match error.kind() {
            ErrorKind::InvalidData => WordsError::NotText,
            _ => WordsError::Memory,
        }
    }
}

impl<T: Drop> From<AllocFailed<T>> for WordsError {
    ghost from_gives = { λ _ e. e ≡ Memory };

    fn from(_: AllocFailed<T>) -> WordsError {
        WordsError::Memory
    }
}

/// The words that `run` is called with, by how they were read: no words where one is no text, since
/// such words are outside the grammar too. Where there was no memory for them, nothing is known of
/// them, and it answers the status that the process ends with.
pub fn words_or_status(
    alloc: Global,
    words: Result<Vec<String>, WordsError>,
) -> Result<Vec<String>, u8>
    ensures read { IfOk words (λ read. result ≡ Ok read) }
    ensures not_text { words ≡ Err NotText → IsOkAnd result (λ read. read.items ≡ []) }
    ensures no_memory { words ≡ Err Memory → result ≡ Err 8 }
{
    match words {
        Ok(words) => Ok(words),
        Err(WordsError::NotText) => Ok(Vec::new(alloc)),
        Err(WordsError::Memory) => Err(8),
    }
}

/// The command that the words call for, or none where they are outside the grammar. The name of
/// the program is not among the words.
pub fn read_words(words: &[String]) -> Option<Command>
    ensures { result ≡ command_of (texts_of words.now) }
{
    let (word, options) = words.split_first()?;
    read_command(word.as_str(), options)
}

// The command of a word and the words behind it.
fn read_command(word: &str, options: &[String]) -> Option<Command>
    ensures { result ≡ command_of_word word.now (texts_of options.now) }
{
    match word {
        "replay" => {
            let mode = read_mode(options)?;
            Some(Command::Replay(mode))
        }
        "contract" => {
            let mode = read_contract_mode(options)?;
            Some(Command::Contract(mode))
        }
        "try" => {
            let file = read_file(options)?;
            Some(Command::Try { file })
        }
        "verify" => read_plain(Command::Verify, options),
        "audit" => read_plain(Command::Audit, options),
        "simulate" => {
            let (number, size) = read_simulation(options)?;
            Some(Command::Simulate { number, size })
        }
        "help" => {
            let topic = read_topic(options)?;
            Some(Command::Help(topic))
        }
        "version" => read_plain(Command::Version, options),
        "wallet" => {
            let call = read_wallet(options)?;
            Some(Command::Wallet(call))
        }
        "transaction" => {
            let number = read_numbered(options)?;
            Some(Command::Transaction(number))
        }
        "keys" if reads_master(options) => Some(Command::ReadKeys { site: 1 }),
        _ => {
            let deployment = read_deployment(word, options)?;
            Some(Command::Deploy(deployment))
        }
    }
}

// What a replay prints, by its options, each of which stands once at most.
fn read_mode(options: &[String]) -> Option<Mode>
    ensures { result ≡ mode_from plain_mode (texts_of options.now) }
{
    let mut mode = Mode {
        traced: false,
        dumps: false,
    };
    for option in options {
        mode = with_option(mode, option.as_str())?;
    }
    Some(mode)
}

// One option more.
fn with_option(mode: Mode, option: &str) -> Option<Mode>
    ensures { result ≡ with_option mode option.now }
{
    match option {
        "--trace" if !mode.traced => Some(Mode {
            traced: true,
            ..mode
        }),
        "--dumps" if !mode.dumps => Some(Mode {
            dumps: true,
            ..mode
        }),
        _ => None,
    }
}

// How a contract is told of, by the options, each of which stands once at most.
fn read_contract_mode(options: &[String]) -> Option<ContractMode>
    ensures { result ≡ contract_mode_from plain_contract (texts_of options.now) }
{
    let mut mode = ContractMode {
        printing: false,
        explaining: false,
    };
    for option in options {
        mode = with_contract_option(mode, option.as_str())?;
    }
    Some(mode)
}

// One option more.
fn with_contract_option(mode: ContractMode, option: &str) -> Option<ContractMode>
    ensures { result ≡ with_contract_option mode option.now }
{
    match option {
        "--print" if !mode.printing => Some(ContractMode {
            printing: true,
            ..mode
        }),
        "--explain" if !mode.explaining => Some(ContractMode {
            explaining: true,
            ..mode
        }),
        _ => None,
    }
}

// A command that has no option.
fn read_plain(command: Command, options: &[String]) -> Option<Command>
    ensures { result ≡ plain_command command (texts_of options.now) }
{
    if options.is_empty() {
        Some(command)
    } else {
        None
    }
}

// The place of the one file behind a command.
fn read_file(options: &[String]) -> Option<usize>
    ensures { result ≡ file_called (texts_of options.now) }
{
    let (file, others) = options.split_first()?;
    if others.is_empty() && is_file(file.as_str()) {
        Some(1)
    } else {
        None
    }
}

// Of what `help` tells.
fn read_topic(options: &[String]) -> Option<Topic>
    ensures { result ≡ topic_called (texts_of options.now) }
{
    match options.split_first() {
        None => Some(Topic::Commands),
        Some((word, others)) => {
            if others.is_empty() {
                topic_of(word.as_str())
            } else {
                None
            }
        }
    }
}
