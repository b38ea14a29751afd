//! What is read of bytes and of texts is what was written so.
ghost use Rattle.std.specs.Prelude.{◌≡◌, ◌↔◌, ℕ, List, Some};
ghost use Rattle.std.specs.declared.net.ip_addr.IpAddr.{IpAddr};
ghost use Rattle.std.specs.Net.Grammar.{IsIpText};
ghost use Rattle.cs_base.specs.Fields.{IsBytes, IsForm};
ghost use Rattle.cs_tx_value.specs.Object.{object_encoding, ObjectFits, object_at};
ghost use Rattle.cs_base.specs.declared.version.Version.{Version};
ghost use Rattle.cs_tx_types.specs.Session.{action_encoding, ActionFits};
ghost use Rattle.cs_tx_types.specs.Reading.{action_at};
ghost use Rattle.cs_tx_types.specs.Entry.{entry_encoding, EntryFits, entry_at};
ghost use Rattle.cs_wire.specs.declared.keys.Keys.{Keys};
ghost use Rattle.cs_wire.specs.Opened.{Opened, opened};
ghost use Rattle.cs_wire.specs.OpenedAs.{IsOpenedAs};
ghost use Rattle.cs_lang.specs.declared.tree.ContractTree.{ContractTree};
ghost use Rattle.cs_lang.specs.Texts.{IsContract};
ghost use Rattle.cs_types.specs.Accepting.{contract_of};
ghost use Rattle.cs_config.specs.Hosts.{address_of};

use cs_config::addresses_are_read;
use cs_types::contracts_are_read;
use cs_wire::datagrams_open_as_they_are_sealed;

/// What is read is what was written so: datagrams are those that were sealed, actions, entries
/// and objects are read from their encodings, and contract texts and addresses are what their
/// grammars spell. So who believes how these are written need not believe how they are read.
///
/// It does nothing: its contract is a theorem, which a caller has by calling it.
pub fn what_is_read_was_written()
    ensures datagrams { (keys : Keys) (bytes : List ℕ) (said : Opened) → IsBytes bytes
        → (opened keys bytes ≡ said) ↔ IsOpenedAs keys bytes said }
    ensures actions { IsForm action_encoding ActionFits action_at }
    ensures entries { (version : Version)
        → IsForm (entry_encoding version) (EntryFits version) (entry_at version) }
    ensures objects { IsForm object_encoding ObjectFits object_at }
    ensures contracts { (text : List ℕ) (contract : ContractTree)
        → (contract_of text ≡ Some contract) ↔ IsContract text contract }
    ensures addresses { (text : List ℕ) (address : IpAddr)
        → (address_of text ≡ Some address) ↔ IsIpText text address }
{
    addresses_are_read();
    datagrams_open_as_they_are_sealed();
    contracts_are_read();
}
