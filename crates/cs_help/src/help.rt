//! The text of a topic.
ghost use Rattle.std.specs.Prelude.{◌≡◌};
ghost use Rattle.cs_help.specs.Topics.{help_text};

use crate::commands;
use crate::topic::Topic;

/// The text of a topic.
pub fn help_text(topic: Topic) -> &'static str
    ensures { result.now ≡ help_text topic }
{
    match topic {
        Topic::Commands => commands::COMMANDS,
        Topic::Replay => commands::REPLAY,
        Topic::Contract => commands::CONTRACT,
        Topic::Try => commands::TRY,
        Topic::Verify => commands::VERIFY,
        Topic::Audit => commands::AUDIT,
        Topic::Simulate => commands::SIMULATE,
        Topic::Node => commands::NODE,
        Topic::Client => commands::CLIENT,
        Topic::Show => commands::SHOW,
        Topic::Keys => commands::KEYS,
        Topic::Cluster => commands::CLUSTER,
        Topic::Wallet => commands::WALLET,
        Topic::Transaction => commands::TRANSACTION,
        Topic::Help => commands::HELP,
        Topic::Version => commands::VERSION,
    }
}
