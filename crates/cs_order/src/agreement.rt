//! What the law of an order says of logs.
ghost use Rattle.cs_order.specs.Law.{LogsAgree, LogsStay, EntriesStay};

use crate::order::Order;

/// In every run of an order the logs of honest members are prefixes of one another, and only grow.
/// An entry that a member gives stays, until it is cut.
///
/// It does nothing: its contract is a theorem, which a caller has by calling it.
pub fn logs_agree<O: Order>()
    ensures prefixes { LogsAgree O.rules }
    ensures stay { LogsStay O.Message }
    ensures entries { EntriesStay O.Message }
{}
