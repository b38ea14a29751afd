//! Reading datagrams.
ghost use Rattle.std.specs.Prelude.{◌≡◌, ℕ, List, IfOk, Ok, Err};
ghost use Rattle.cs_base.specs.declared.config.Config.{Config};
ghost use Rattle.cs_base.specs.declared.node_id.NodeId.{NodeId as Name};
ghost use Rattle.cs_wire_message.specs.Message.{MessageFits};
ghost use Rattle.cs_wire.specs.declared.keys.Keys.{Keys as AnyKeys};
ghost use Rattle.cs_wire.specs.declared.opening.OpenError.{OpenError as AnyError};
ghost use Rattle.cs_wire.specs.Keys.{IsOfMaster};
ghost use Rattle.cs_wire.specs.Opened.{opened, keys_of_master};

use crate::keys::Keys;
use crate::opening::{OpenError, open};
use cs_base::{Memory, NodeId};
use cs_wire_message::Message;
use std::alloc::Global;

/// What a datagram says: its sender and its message, or the first test that fails. One that fails
/// takes no memory, so it is told in any case.
pub fn read(
    alloc: Global,
    keys: &Keys,
    bytes: &[u8],
) -> Result<Result<(NodeId, Message), OpenError>, Memory>
    ensures said { IfOk result (λ said. said ≡ opened keys.now bytes.now) }
    ensures refused { (error : AnyError) → opened keys.now bytes.now ≡ Err error
        → result ≡ Ok (Err error) }
    ensures fits { IfOk result (λ said. IfOk said (λ s. MessageFits keys.now.version s.1)) }
{
    match open(keys, bytes) {
        Ok((from, view)) => {
            let message = view.to_message(alloc)?;
            Ok(Ok((from, message)))
        }
        Err(error) => Ok(Err(error)),
    }
}

/// Keys that a master key gave open what the keys of the definition open: a list of keys may have
/// any order.
#[tactic(auto, using(crate::proofs::Masters::opened_alike))]
pub fn keys_of_a_master_open_alike()
    ensures { (config : Config) (master : List ℕ) (me : Name) (keys : AnyKeys) (bytes : List ℕ)
        → IsOfMaster config master me keys
        → opened keys bytes ≡ opened (keys_of_master config master me) bytes }
{}
