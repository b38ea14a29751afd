//! Call files.
ghost use Rattle.std.specs.Prelude.{IfOk};
ghost use Rattle.std.specs.List.{AllByRecursion};
ghost use Rattle.toml.specs.View.{view, table_view};
ghost use Rattle.cs_tx_value.specs.Encoding.{ValueFits};
ghost use Rattle.cs_config.specs.Reading.{FileGives};
ghost use Rattle.cs_config.specs.Call.{call_draft_of, transaction_call, IsCallWithin, GivesCalled, GivesTableCall, GivesCall};

use crate::document::read_table;
use crate::error::{ConfigError, FileField};
use crate::fields::{each_at, one_at, value_at};
use crate::given::{number_in, transaction_in};
use crate::hex_values::read_contract;
use crate::limits::LAST_NUMBER;
use crate::numbers::within;
use crate::readable::Readable;
use cs_base::{Memory, Sequence};
use cs_io::Text;
use cs_tx_value::{Digest, Value, each_fits};
use std::alloc::Global;
use toml::Table;

/// What a client is to do: to run the method of a contract on objects and arguments; or to submit a
/// transaction, and then nothing is called.
#[derive(Drop)]
pub struct CallFile {
    pub contract: Digest,
    pub method: Text,
    /// The keys of the objects that the method consumes.
    pub inputs: Sequence<Digest>,
    /// The keys of the objects that the method reads.
    pub reads: Sequence<Digest>,
    pub args: Sequence<Value>,
    /// The number of the session.
    pub number: u64,
    /// The encoding of the transaction.
    pub transaction: Option<Sequence<u8>>,
}

// The fields of a call file, before their ranges are looked at.
#[derive(Drop)]
pub(crate) struct CallDraft {
    pub(crate) contract: ContractId,
    pub(crate) method: Text,
    pub(crate) inputs: Sequence<Digest>,
    pub(crate) reads: Sequence<Digest>,
    pub(crate) args: Sequence<Value>,
    pub(crate) number: i64,
}

// The id of a contract, which may stand as `token`.
#[derive(Clone, Copy, Debug, PartialEq, Eq)]
pub(crate) struct ContractId(pub(crate) Digest);

impl Readable for ContractId {
    ghost use Rattle.cs_config.specs.Contract.{contract_id_of};

    ghost meaning = { contract_id_of };

    ghost Fits = { λ _. Unit {0} };

    fn read(alloc: Global, value: &toml::Value) -> Result<Option<ContractId>, Memory> {
        let Some(text) = value.as_str() else {
            return Ok(None);
        };
        match read_contract(alloc, text)? {
            Some(contract) => Ok(Some(ContractId(contract))),
            None => Ok(None),
        }
    }
}

/// What a call file says.
pub fn read_call(alloc: Global, bytes: &[u8]) -> Result<CallFile, ConfigError>
    ensures given { GivesCall result bytes.now }
    ensures fits { IfOk result (λ call. AllByRecursion ValueFits call.args) }
{
    let table = read_table(alloc, bytes)?;
    call_in(alloc, &table)
}

// What the table of a call file says: a transaction, where one stands there, else a call.
fn call_in(alloc: Global, table: &Table) -> Result<CallFile, ConfigError>
    ensures given { GivesTableCall result (table_view table.now) }
    ensures fits { IfOk result (λ call. AllByRecursion ValueFits call.args) }
{
    match value_at(table, FileField::Transaction) {
        Some(value) => transaction_call(alloc, table, value),
        None => called(alloc, table),
    }
}

fn called(alloc: Global, table: &Table) -> Result<CallFile, ConfigError>
    ensures given { GivesCalled result (table_view table.now) }
    ensures fits { IfOk result (λ call. AllByRecursion ValueFits call.args) }
{
    let draft = call_draft(alloc, table)?;
    call_within(draft)
}

fn transaction_call(
    alloc: Global,
    table: &Table,
    value: &toml::Value,
) -> Result<CallFile, ConfigError>
    ensures given { FileGives result (transaction_call (view value.now) (table_view table.now)) }
    ensures fits { IfOk result (λ call. AllByRecursion ValueFits call.args) }
{
    let transaction = transaction_in(alloc, table, value)?;
    let number = number_in(alloc, table)?;
    Ok(CallFile {
        contract: [0; 32],
        method: Text::from_string(String::new(alloc)),
        inputs: Sequence::new(alloc),
        reads: Sequence::new(alloc),
        args: Sequence::new(alloc),
        number,
        transaction: Some(transaction),
    })
}

fn call_draft(alloc: Global, table: &Table) -> Result<CallDraft, ConfigError>
    ensures { FileGives result (call_draft_of (table_view table.now)) }
{
    let contract = one_at(alloc, table, FileField::Contract)?;
    let method = one_at(alloc, table, FileField::Method)?;
    let inputs = each_at(alloc, table, FileField::Inputs)?;
    let reads = each_at(alloc, table, FileField::Reads)?;
    let args = each_at(alloc, table, FileField::Args)?;
    let number = one_at(alloc, table, FileField::Number)?;
    Ok(CallDraft {
        contract,
        method,
        inputs,
        reads,
        args,
        number,
    })
}

fn call_within(draft: CallDraft) -> Result<CallFile, ConfigError>
    ensures { IsCallWithin draft result }
{
    if !each_fits(draft.args.as_slice()) {
        return Err(ConfigError::Limit(FileField::Args));
    }
    let contract = draft.contract.0;
    let number = within(FileField::Number, draft.number, 0, LAST_NUMBER)?;
    Ok(CallFile {
        contract,
        method: draft.method,
        inputs: draft.inputs,
        reads: draft.reads,
        args: draft.args,
        number,
        transaction: None,
    })
}
