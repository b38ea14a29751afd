// What holds of the worlds of deployments of several shards.

ghost use Rattle.cs_world_law.specs.Worlds.{OfWorlds, OfWorldsApart, OfWorldsAlone, IsSerial, SpendsOnce, DecidesOnce, ExecutesGiven, ExecutesKnown, ExecutesFit, TellsAccepted, HoldsFree, NodesHoldFree, KeepsTables, AllUpToDate, AllVoteFree, AllAcceptLocked};
ghost use Rattle.cs_world_law.specs.Steps.{StepsAllowed, StepsComputed, FollowsShard, VotesOnce, TellsCommitted, TellsBefore};
ghost use Rattle.cs_world_law.specs.Orders.{ExecutesChosen};
ghost use Rattle.cs_world_law.specs.Clients.{TellsClientsAccepted, TellsClientsAborted};

use cs_ledger::composition;
use cs_node_law::marks_are_made;
use cs_order::Order;

/// What holds of every world of up to 16 shards, whatever its order, its genesis and its judge,
/// where at most f of the 3f+1 nodes of each shard lie.
///
/// It does nothing: its contract is a theorem, which a caller has by calling it.
pub fn settled_world<O: Order>()
    // The transactions of the history are one after the other such that the plain ledger takes them
    // from the genesis: each is well formed and approved, its inputs and references are there with
    // exactly the carried objects, and its outputs are new.
    ensures serial { OfWorldsApart O.rules (λ site world. IsSerial site world) }
    // No object is consumed twice, by two transactions or by one.
    ensures spent_once { OfWorldsApart O.rules (λ site world. SpendsOnce site world) }
    // No two honest nodes, of any shards, decide a session differently. A vote abort counts as a
    // decision.
    ensures one_decision { OfWorldsApart O.rules (λ site world. DecidesOnce site world) }
    // Each executed session stood in an input, so its strings are among those that do not collide.
    // This needs no such premise.
    ensures executed { OfWorlds O.rules (λ site world. ExecutesGiven site world) }
    // Each executed entry is one that stood in an input, or that an honest node proposed: no bytes
    // are executed that are no entry.
    ensures executed_known { OfWorlds O.rules (λ site world. ExecutesKnown site world) }
    // It has an encoding.
    ensures executed_fit { OfWorlds O.rules (λ site world. ExecutesFit site world) }
    // What the order of an honest node chose, the node has executed, slot by slot, each action in
    // its place, and nothing else.
    ensures executes_chosen { OfWorlds O.rules (λ site world. ExecutesChosen site world) }
    // The first executions of actions are steps that may be taken: what is prepared is well
    // formed, of that shard and approved, and what is decided has the votes of the shards for it.
    ensures allowed { OfWorldsApart O.rules (λ site world. StepsAllowed site world) }
    // Where no node may lie, this needs no premise on hashes.
    ensures allowed_alone { OfWorldsAlone O.rules (λ site world. StepsAllowed site world) }
    // They are of the actions of each shard's slots in order, and each result is what the action
    // comes to on the table of the shard's log before.
    ensures computed { OfWorldsApart O.rules (λ site world. StepsComputed site world) }
    ensures computed_alone { OfWorldsAlone O.rules (λ site world. StepsComputed site world) }
    // The log of each honest node, with its results, is the older part of its shard's log.
    ensures logs { OfWorldsApart O.rules (λ site world. FollowsShard site world) }
    ensures logs_alone { OfWorldsAlone O.rules (λ site world. FollowsShard site world) }
    // All Prepare of a session in the log of a shard that were voted on were given one vote.
    ensures one_vote { OfWorldsApart O.rules (λ site world. VotesOnce site world) }
    // Each transaction that an honest node accepted is in the history.
    ensures accepted { OfWorldsApart O.rules (λ site world. TellsAccepted site world) }
    // It was there before the decision was first executed.
    ensures before { OfWorldsApart O.rules (λ site world. TellsBefore site world) }
    // After the execution with which all concerned shards have voted commit the transaction is in
    // the history, and no honest node decides abort on the session, before or after it.
    ensures committed { OfWorldsApart O.rules (λ site world. TellsCommitted site world) }
    // A client is told that a session was accepted only where its transaction is in the history.
    ensures told_accepted { OfWorldsApart O.rules (λ site world. TellsClientsAccepted site world) }
    // It is told that one was aborted only where no honest node accepts it, before or after.
    ensures told_aborted { OfWorldsApart O.rules (λ site world. TellsClientsAborted site world) }
    // A Prepare of a session whose keys here are all active with the carried objects, on which no
    // vote is noted and whose anchor has room, is answered commit at each honest node, and the vote
    // goes to all other nodes of the concerned shards.
    ensures votes_free { OfWorldsApart O.rules (λ site world. AllVoteFree site world) }
    // Where no node may lie, this needs no premise on hashes.
    ensures votes_free_alone { OfWorldsAlone O.rules (λ site world. AllVoteFree site world) }
    // A Decide commit of a session that has its anchor locked is accepted at each honest node:
    // afterwards its inputs and its dummy are inactive. Its outputs are active, since names that do
    // not collide were never there before.
    ensures accepts_locked { OfWorldsApart O.rules (λ site world. AllAcceptLocked site world) }
    // An object that is free in the table to which the log of a shard comes is in the ledger after
    // the history.
    ensures objects { OfWorldsApart O.rules (λ site world. HoldsFree site world) }
    // So is one that is free in the table of an honest node that has executed all of its shard.
    ensures node_objects { OfWorldsApart O.rules (λ site world. NodesHoldFree site world) }
    // The table of an honest node is what its own log comes to.
    ensures tables { OfWorlds O.rules (λ site world. KeepsTables site world) }
    // Where no node may lie, the one node of a shard has executed all of it.
    ensures alone { OfWorldsAlone O.rules (λ site world. AllUpToDate site world) }
{
    composition();
    marks_are_made::<O>();
}
