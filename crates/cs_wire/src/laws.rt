//! Laws of datagrams.
ghost use Rattle.std.specs.Prelude.{◌≡◌, ◌↔◌, ℕ, List, [], true, false, Result};
ghost use Rattle.cs_base.specs.declared.config.Config.{Config};
ghost use Rattle.cs_base.specs.declared.node_id.NodeId.{NodeId};
ghost use Rattle.cs_base.specs.NodeId.{is_named, same_name};
ghost use Rattle.cs_base.specs.Fields.{IsBytes};
ghost use Rattle.cs_wire_message.specs.declared.message.Message.{Message};
ghost use Rattle.cs_wire_message.specs.Message.{MessageFits};
ghost use Rattle.cs_wire.specs.declared.keys.Keys.{Keys};
ghost use Rattle.cs_wire.specs.declared.view.MessageView.{MessageView};
ghost use Rattle.cs_wire.specs.declared.opening.OpenError.{OpenError};
ghost use Rattle.cs_wire.specs.Keys.{IsOfMaster};
ghost use Rattle.cs_wire.specs.Opens.{IsName, Seals, IsSealed, Opens, OpensAs};
ghost use Rattle.cs_wire.specs.Opened.{Opened, opened};
ghost use Rattle.cs_wire.specs.OpenedAs.{IsOpenedAs};

/// What `open` answers is determined: the datagram of a sender and a message that it holds the key
/// of is opened as just these.
#[tactic(auto, using(crate::proofs::Unsealed::opens_as))]
pub fn sealed_datagrams_are_opened()
    ensures { (keys : Keys) (bytes : List ℕ) (r : Result (NodeId × MessageView) OpenError)
        → Opens keys bytes r
        → (sender : NodeId) (m : Message) → IsSealed keys bytes sender m → OpensAs r sender m }
{}

/// What one name seals for another, under keys of one configuration and one master key, is at the
/// other a datagram of the first with that message.
#[tactic(auto, using(crate::proofs::Unsealed::sealed_for))]
pub fn names_of_one_master_understand_each_other()
    ensures { (config : Config) (master : List ℕ) (i j : NodeId) (a b : Keys)
        (m : Message) (bytes : List ℕ)
        → IsOfMaster config master i a → IsOfMaster config master j b
        → IsName i → IsName j → is_named config i ≡ true → same_name i j ≡ false
        → MessageFits a.version m → Seals a j m [] bytes → IsSealed b bytes i m }
{}

/// What bytes open as, told of whole datagrams: a sender and its message exactly where they are the
/// datagram of that message from it under the key that is held, and else the first test that fails.
/// So who believes what a datagram is need not read how its bytes are taken apart.
///
/// It does nothing: its contract is a theorem, which a caller has by calling it.
#[tactic(auto, using(crate::proofs::OpenedAs::opened_exactly))]
pub fn datagrams_open_as_they_are_sealed()
    ensures { (keys : Keys) (bytes : List ℕ) (said : Opened) → IsBytes bytes
        → (opened keys bytes ≡ said) ↔ IsOpenedAs keys bytes said }
{}
