//! The whole of the program, over the words and the outside that are handed in.
ghost use Rattle.std.specs.Prelude.{◌≡◌, ◌≢◌, ◌≤◌, ◌↔◌, Bool, true, ℕ, List, take, Option, Ok, Some, None};
ghost use Rattle.std.specs.Io.KnownBytes.{Keeps};
ghost use Rattle.std.specs.declared.net.ip_addr.IpAddr.{IpAddr};
ghost use Rattle.std.specs.Net.Grammar.{IsIpText};
ghost use Rattle.cs_base.specs.Outside.{HasCause};
ghost use Rattle.cs_base.specs.Answers.{Answers};
ghost use Rattle.cs_base.specs.Fields.{IsBytes, IsForm};
ghost use Rattle.cs_base.specs.declared.limits.TheConstants.{MOST_SCHEDULE};
ghost use Rattle.cs_sched.specs.Text.{schedule_of};
ghost use Rattle.cs_sched.specs.declared.schedule.Schedule.{Schedule};
ghost use Rattle.cs_native.specs.Approval.{is_approved_by};
ghost use Rattle.cs_replay.specs.Sound.{IsSound, IsSoundWorld, AfterEach};
ghost use Rattle.cs_cli.specs.Words.{command_of, texts_of};
ghost use Rattle.cs_tx_value.specs.Object.{object_encoding, ObjectFits, object_at};
ghost use Rattle.cs_base.specs.declared.version.Version.{Version};
ghost use Rattle.cs_tx_types.specs.Session.{action_encoding, ActionFits};
ghost use Rattle.cs_tx_types.specs.Reading.{action_at};
ghost use Rattle.cs_tx_types.specs.Entry.{entry_encoding, EntryFits, entry_at};
ghost use Rattle.cs_base.specs.declared.version.Version.TheVariants.{One};
ghost use Rattle.cs_tx_types.specs.Log.{ProofFits};
ghost use Rattle.cs_wire.specs.Opened.{Opened, opened};
ghost use Rattle.cs_wire.specs.OpenedAs.{IsOpenedAs};
ghost use Rattle.cs_lang.specs.declared.tree.ContractTree.{ContractTree};
ghost use Rattle.cs_lang.specs.Texts.{IsContract};
ghost use Rattle.cs_types.specs.Accepting.{contract_of};
ghost use Rattle.cs_lang_token.specs.declared.kind.Kind.{Kind as TokenKind};
ghost use Rattle.cs_explain.specs.Fronts.{IsFront, goes_on};
ghost use Rattle.cs_explain.specs.Wanted.{IsOneOf, with_token, wanted_at};
ghost use Rattle.cs_verify.specs.declared.claim.Claim.{Claim};
ghost use Rattle.cs_verify.specs.Verdicts.{verdict_on, ShowsExactly, VerdictTells as ProofTells};
ghost use Rattle.cs_gen.specs.declared.limits.TheConstants.{MOST_SIZE};
ghost use Rattle.cs_cli.specs.Simulated.{simulate_answer, IsEndOfReplay};
ghost use Rattle.cs_audit_dump.specs.declared.dump.Dump.{Dump};
ghost use Rattle.cs_audit_dump.specs.declared.limits.TheConstants.{MOST_DUMP};
ghost use Rattle.cs_audit_dump.specs.Formed.{IsFormed};
ghost use Rattle.cs_audit_dump.specs.Text.{dump_of};
ghost use Rattle.cs_audit_rules.specs.Sound.{SaysSound};
ghost use Rattle.cs_cli.specs.Audited.{dump_setup, dump_verdict, DumpsAreAnsweredYes};
ghost use Rattle.cs_base.specs.declared.config.Config.{Config};
ghost use Rattle.cs_base.specs.declared.node_id.NodeId.{NodeId};
ghost use Rattle.cs_tx_value.specs.declared.object.Object.{Object as AnyObject};
ghost use Rattle.cs_tx_types.specs.declared.transaction.Tx.{Tx};
ghost use Rattle.cs_order_rules.specs.declared.message.OrderMessage.{OrderMessage};
ghost use Rattle.cs_node_rules.specs.Site.{Site, start_view};
ghost use Rattle.cs_node_rules.specs.World.{trail_of};
ghost use Rattle.cs_wire.specs.declared.keys.Keys.{Keys as FileKeys};
ghost use Rattle.cs_config.specs.File.{keys_of};
ghost use Rattle.cs_config.specs.KeyText.{KeysAloneTell};
ghost use Rattle.cs_config.specs.Hosts.{address_of};
ghost use Rattle.cs_node.specs.Speaking.{Speaks};
ghost use Rattle.cs_world_law.specs.Worlds.{net_of_keys};
ghost use Rattle.cs_serve.specs.Serving.{trail};
ghost use Rattle.cs_run_law.specs.Running.{Given, inputs_at, world_given, site_of_keys, IsTraffic};
ghost use Rattle.cs_onetime.specs.Halves.{public_key};
ghost use Rattle.cs_onetime.specs.Signature.{Verifies, signature};
ghost use Rattle.cs_onetime.specs.Wallet.{Call as WalletUse, CallsGo, IsSigned};
ghost use Rattle.cs_onetime.specs.declared.wallet.Wallet.{Wallet};
ghost use Rattle.cs_io.specs.Outside.{Object, told_of, faults_of, outside};
ghost use Rattle.cs_cli.specs.Answers.{words_answer};
ghost use Rattle.cs_cli.specs.Done.{DeploymentDoes, CommandDoes};
ghost use Rattle.cs_cli.specs.Alone.{DeploymentLeaves, CommandLeaves, LeavesAlone};
ghost use Rattle.cs_cli.specs.Limits.{DeploymentLimitsAre, TextLimitsAre, LedgerLimitsAre, OrderLimitsAre};
ghost use Rattle.cs_cli.specs.declared.words.Command.{Command};
ghost use Rattle.cs_cli.specs.declared.words.Command.TheVariants.{Simulate};

use crate::auditing::audited_dumps_are_sound;
use crate::claims::shown_claims_are_covered;
use crate::deployments::{Deployment, word_at, word_if};
use crate::examining::{Subject, examine_source};
use crate::readings::what_is_read_was_written;
use crate::simulate;
use crate::telling::tell_source;
use crate::words::{Command, read_words};
use cs_audit_law::dumps_are_answered_yes;
use cs_base::{Sink, Source, print};
use cs_config::key_files_tell_keys_alone;
use cs_deploy::{
    run_client, run_client_session, run_client_tries, run_cluster, run_keys, run_keys_read,
    run_node, run_show,
};
use cs_explain::wanted_tokens_can_stand;
use cs_help::{tell_help, tell_version};
use cs_io::{Link, Spawner, Store, closing};
use cs_onetime::{no_number_signs_two_messages, signatures_verify};
use cs_replay::{replay_source, schedules_are_sound};
use cs_run_law::{keys_of_files_speak, nodes_serve_their_trails, running_nodes_are_sound};
use cs_transact::run_transaction;
use cs_trial::run_try;
use cs_wallet::run_wallet;
use std::alloc::Global;

/// Does what the words call for, and answers the status that the process ends with: 0 where it is
/// done, 2 for words outside the grammar, 3 for a text with a bad line, a contract with a fault, a
/// simulation of coins with one key or a call whose method is refused, 4 where a line injects what
/// its sender never sent, 9 for a proof that isn't shown or a dump that breaks a rule, 10 for a call
/// that stays open, 12 for a file that isn't taken, 13 where a quantity is past its limit, 5 where
/// the source fails, 6 where the sink does, 7 the link, 11 the spawner, 12 the store, and 8 for want
/// of memory.
///
/// For every replayed schedule, with at most f liars per shard, no forged tag and no hash
/// collision, the accepted transactions form one serial history that the ledger takes and every
/// checker approves; no object is consumed twice; no two honest nodes decide a session differently;
/// each phase of a session with free objects succeeds once its stated messages have arrived; and
/// the printed decisions are the core's.
pub fn run<S: Source, K: Sink, E: Store, L: Link, P: Spawner>(
    alloc: Global,
    words: &[String],
    input: &mut S,
    output: &mut K,
    store: &mut E,
    link: &mut L,
    spawn: &mut P,
) -> u8
    // Words outside the grammar are refused, and nothing is read.
    ensures words { command_of (texts_of words.now) ≡ None
        → Answers words_answer (K.written output.old) (K.written output.new) result }
    ensures unread { command_of (texts_of words.now) ≡ None
        → Keeps (S.left input.old) (S.left input.new) }
    ensures only_words { result ≡ 2 → command_of (texts_of words.now) ≡ None }

    // What each command does stands in `Does`, by what the outside told before and after.
    ensures does { (command : Command) → command_of (texts_of words.now) ≡ Some command →
        let told = outside S.left S.faults K.written K.faults E.files E.faults L.told L.faults
        P.told P.faults in
        CommandDoes command (texts_of words.now)
        (told input.old output.old store.old link.old spawn.old)
        (told input.new output.new store.new link.new spawn.new) result }

    // What the words call for has no other effect: a file, a link, a spawner or a source that it
    // isn't handed tells what it told, and has failed no more often.
    ensures alone { let told = outside S.left S.faults K.written K.faults E.files E.faults
        L.told L.faults P.told P.faults in
        LeavesAlone (command_of (texts_of words.now))
        (told input.old output.old store.old link.old spawn.old)
        (told input.new output.new store.new link.new spawn.new) }

    // `verify` says `shown` exactly where the proof shows its leaf; then, where no strings collide,
    // each checkpoint that has the head is the proof's, and has the leaf at its place.
    ensures shown { (claim : Claim) → ShowsExactly claim (verdict_on claim) }
    ensures covered { (claim : Claim) → ProofFits One claim.proof
        → ProofTells claim.head (verdict_on claim) }

    // A yes of `audit` says that the dump is sound with that history. There is no premise.
    ensures sound_dump { (text : List ℕ) (dump : Dump) → dump_of MOST_DUMP text ≡ Ok dump
        → SaysSound (dump_setup dump) dump (dump_verdict dump) }
    // Each shard has one log in a dump that is read, in their order.
    ensures formed_dump { (text : List ℕ) (dump : Dump) → dump_of MOST_DUMP text ≡ Ok dump
        → IsFormed dump }
    // What a replay dumps is answered yes, with the history that it printed.
    ensures dumps_pass { (text : List ℕ) (schedule : Schedule)
        → schedule_of MOST_SCHEDULE text ≡ Ok schedule → DumpsAreAnsweredYes schedule }

    // Nothing is injected in the schedule of `simulate`, so it ends with 0, 3 or 13.
    ensures simulate_ends { (number size : ℕ) → IsEndOfReplay (simulate_answer number size) }

    // The keys of each key file, in a deployment of version 1, speak in the net of any names of
    // which their holder is one, so of each node it is said what it sends there.
    ensures keys_speak { (config : Config) (text : List ℕ) (keys : NodeId → FileKeys)
        (liars : List NodeId) (i : NodeId) → config.version ≡ 1
        → keys_of config text ≡ Ok (keys i) → (keys i).me ≡ i
        → Speaks config (net_of_keys config keys liars) (keys i) }
    // A key file tells no more of the master key than the keys that it holds: two master keys that
    // give a name the same keys give it the same file.
    ensures keys_alone { KeysAloneTell }
    // Nodes that run make a world of what they are given: each does in it what it does where it is
    // served. Where nothing is forged, what is true of the worlds of schedules is true of it.
    ensures trails { (site : Site OrderMessage) (given : List Given) (i : NodeId)
        → trail_of i (world_given site given) ≡ trail site (start_view site i) (inputs_at i given) }
    ensures running { (config : Config) (keys : NodeId → FileKeys) (liars : List NodeId)
        (genesis : List AnyObject) (approves : Tx → Bool) (given : List Given) →
        let site = site_of_keys config keys liars genesis approves in
        IsTraffic site given → AfterEach (IsSoundWorld site genesis) (world_given site given) }

    // What is true of every schedule that is read, as far as it is played, after each of its events
    // and whichever few nodes lie in it: of its history, which is printed, and of the decisions of
    // all honest nodes. A free session is voted commit and the vote is sent; what a node can echo or
    // confirm it has, and has told the others; what its order chose it has executed; a session that
    // holds its lock is accepted when commit is decided. What is shown under a head that an honest
    // node noted is what it executed.
    ensures sound { (text : List ℕ) (schedule : Schedule)
        → schedule_of MOST_SCHEDULE text ≡ Ok schedule
        → IsSound (is_approved_by schedule.contracts) schedule }

    // What a wallet signs verifies under the public key of its number. Over every list of calls of a
    // wallet no number signs two messages.
    ensures signatures { (seed : List ℕ) (number : ℕ) (message : List ℕ)
        → Verifies (public_key seed number) message (signature seed number message) }
    ensures one_message { (old new : Wallet) (calls : List WalletUse) (number : ℕ)
        (one other : List ℕ) → CallsGo old calls new → IsSigned number one calls
        → IsSigned number other calls → one ≡ other }

    // These limits, which clauses have by name, are these numbers.
    ensures deployment_limits { DeploymentLimitsAre }
    ensures text_limits { TextLimitsAre }
    ensures ledger_limits { LedgerLimitsAre }
    ensures order_limits { OrderLimitsAre }

    // What is read is what was written so. Bytes open as a message exactly where they are its
    // datagram, sealed under the key that is held, and else the first test that fails is told;
    // actions, entries and objects are read from their encodings; contracts and addresses are what
    // their grammars spell.
    ensures datagrams { (keys : FileKeys) (bytes : List ℕ) (said : Opened) → IsBytes bytes
        → (opened keys bytes ≡ said) ↔ IsOpenedAs keys bytes said }
    ensures actions { IsForm action_encoding ActionFits action_at }
    ensures entries { (version : Version)
        → IsForm (entry_encoding version) (EntryFits version) (entry_at version) }
    ensures objects { IsForm object_encoding ObjectFits object_at }
    ensures contracts { (text : List ℕ) (contract : ContractTree)
        → (contract_of text ≡ Some contract) ↔ IsContract text contract }
    ensures addresses { (text : List ℕ) (address : IpAddr)
        → (address_of text ≡ Some address) ↔ IsIpText text address }

    // A kind of tokens is told as wanted at a place of a refused contract exactly where the text
    // before it, with such a token behind it, is the front of a contract text. Fronts are those of
    // the grammar.
    ensures fronts { (text : List ℕ) → (goes_on text ≡ true) ↔ IsFront text }
    ensures wanted { (text : List ℕ) (place : ℕ) (kind : TokenKind)
        → IsOneOf kind (wanted_at text place) ↔ IsFront (with_token (take place text) kind) }

    // A fault is answered only where one of that object came about in this call.
    ensures read_fault { HasCause (S.faults input.old) (S.faults input.new) (result ≡ 5) }
    ensures write_fault { HasCause (K.faults output.old) (K.faults output.new) (result ≡ 6) }
{
    what_is_read_was_written();
    wanted_tokens_can_stand();
    schedules_are_sound();
    dumps_are_answered_yes();
    shown_claims_are_covered();
    audited_dumps_are_sound();
    keys_of_files_speak();
    key_files_tell_keys_alone();
    nodes_serve_their_trails();
    running_nodes_are_sound();
    signatures_verify();
    no_number_signs_two_messages();
    match read_words(words) {
        Some(command) => answer(alloc, words, command, input, output, store, link, spawn),
        None => closing(print(output, b"words\n"), 2),
    }
}

// Does what a command calls for, whose files are among the words.
fn answer<S: Source, K: Sink, E: Store, L: Link, P: Spawner>(
    alloc: Global,
    words: &[String],
    command: Command,
    input: &mut S,
    output: &mut K,
    store: &mut E,
    link: &mut L,
    spawn: &mut P,
) -> u8
    requires { (number size : ℕ) → command ≡ Simulate number size → size ≤ MOST_SIZE }
    ensures does { let told = outside S.left S.faults K.written K.faults E.files E.faults
        L.told L.faults P.told P.faults in
        CommandDoes command (texts_of words.now)
        (told input.old output.old store.old link.old spawn.old)
        (told input.new output.new store.new link.new spawn.new) result }
    ensures alone { let told = outside S.left S.faults K.written K.faults E.files E.faults
        L.told L.faults P.told P.faults in
        CommandLeaves command (told input.old output.old store.old link.old spawn.old)
        (told input.new output.new store.new link.new spawn.new) }
    ensures only { result ≢ 2 }
    ensures read_fault { HasCause (S.faults input.old) (S.faults input.new) (result ≡ 5) }
    ensures write_fault { HasCause (K.faults output.old) (K.faults output.new) (result ≡ 6) }
{
    match command {
        Command::Replay(mode) => replay_source(alloc, mode, input, output),
        Command::Contract(mode) => tell_source(alloc, mode, input, output),
        Command::Try { file } => run_try(alloc, word_at(words, file), input, store, output),
        Command::Verify => examine_source(alloc, Subject::Claim, input, output),
        Command::Audit => examine_source(alloc, Subject::Dump, input, output),
        Command::Simulate { number, size } => simulate(alloc, number, size, output),
        Command::Help(topic) => tell_help(topic, output),
        Command::Version => tell_version(output),
        Command::Wallet(call) => run_wallet(alloc, call, word_at(words, 2), store, output),
        Command::Transaction(number) => run_transaction(alloc, number, input, output),
        Command::ReadKeys { site } => {
            run_keys_read(alloc, word_at(words, site), input, store, output)
        }
        Command::Deploy(deployment) => deploy(alloc, words, deployment, output, store, link, spawn),
    }
}

// Does what a command of a deployment calls for.
fn deploy<K: Sink, E: Store, L: Link, P: Spawner>(
    alloc: Global,
    words: &[String],
    deployment: Deployment,
    output: &mut K,
    store: &mut E,
    link: &mut L,
    spawn: &mut P,
) -> u8
    ensures deploys { (source source' : Object (Option (List ℕ))) →
        let told = outside told_of faults_of K.written K.faults E.files E.faults L.told L.faults
        P.told P.faults in
        DeploymentDoes deployment (texts_of words.now)
        (told source output.old store.old link.old spawn.old)
        (told source' output.new store.new link.new spawn.new) result }
    ensures alone { (source : Object (Option (List ℕ))) →
        let told = outside told_of faults_of K.written K.faults E.files E.faults L.told L.faults
        P.told P.faults in
        DeploymentLeaves deployment (told source output.old store.old link.old spawn.old)
        (told source output.new store.new link.new spawn.new) }
    ensures only { (result ≢ 2) × (result ≢ 5) }
    ensures write_fault { HasCause (K.faults output.old) (K.faults output.new) (result ≡ 6) }
{
    match deployment {
        Deployment::Node {
            site,
            keys,
            hosts,
            until,
        } => {
            let site = word_at(words, site);
            let keys = word_at(words, keys);
            let hosts = word_if(words, hosts);
            run_node(alloc, site, keys, hosts, until, store, link, output)
        }
        Deployment::Client {
            site,
            keys,
            call,
            hosts,
            until,
        } => {
            let site = word_at(words, site);
            let keys = word_at(words, keys);
            let call = word_at(words, call);
            let hosts = word_if(words, hosts);
            run_client(alloc, site, keys, call, hosts, until, store, link, output)
        }
        Deployment::ClientTries {
            site,
            keys,
            call,
            hosts,
            wishes,
            until,
        } => {
            let site = word_at(words, site);
            let keys = word_at(words, keys);
            let call = word_at(words, call);
            let hosts = word_if(words, hosts);
            run_client_tries(
                alloc, site, keys, call, hosts, wishes, until, store, link, output,
            )
        }
        Deployment::ClientSession {
            site,
            keys,
            call,
            hosts,
            details,
            session,
            until,
        } => {
            let site = word_at(words, site);
            let keys = word_at(words, keys);
            let call = word_at(words, call);
            let hosts = word_if(words, hosts);
            let session = word_at(words, session);
            run_client_session(
                alloc, site, keys, call, hosts, session, details, until, store, link, output,
            )
        }
        Deployment::Show {
            site,
            keys,
            key,
            hosts,
            until,
        } => {
            let site = word_at(words, site);
            let keys = word_at(words, keys);
            let hosts = word_if(words, hosts);
            run_show(alloc, site, keys, hosts, key, until, store, link, output)
        }
        Deployment::Keys { site, master } => {
            run_keys(alloc, word_at(words, site), &master, store, output)
        }
        Deployment::Cluster { plan } => {
            run_cluster(alloc, word_at(words, plan), store, spawn, output)
        }
    }
}
