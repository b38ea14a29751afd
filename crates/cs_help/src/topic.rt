//! What a help text is of.
ghost use Rattle.std.specs.Prelude.{◌≡◌};
ghost use Rattle.cs_help.specs.Topics.{topic_of};

/// What a help text is of.
#[derive(Clone, Copy, Debug, PartialEq, Eq)]
pub enum Topic {
    /// All commands, a line each.
    Commands,
    Replay,
    Contract,
    Try,
    Verify,
    Audit,
    Simulate,
    Node,
    Client,
    Show,
    Keys,
    Cluster,
    Wallet,
    Transaction,
    Help,
    Version,
}

/// The command of this name.
pub fn topic_of(word: &str) -> Option<Topic>
    ensures { result ≡ topic_of word.now }
{
    match word {
        "replay" => Some(Topic::Replay),
        "contract" => Some(Topic::Contract),
        "try" => Some(Topic::Try),
        "verify" => Some(Topic::Verify),
        "audit" => Some(Topic::Audit),
        "simulate" => Some(Topic::Simulate),
        "node" => Some(Topic::Node),
        "client" => Some(Topic::Client),
        "show" => Some(Topic::Show),
        "keys" => Some(Topic::Keys),
        "cluster" => Some(Topic::Cluster),
        "wallet" => Some(Topic::Wallet),
        "transaction" => Some(Topic::Transaction),
        "help" => Some(Topic::Help),
        "version" => Some(Topic::Version),
        _ => None,
    }
}
