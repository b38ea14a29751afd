//! What a field of a schedule says.
ghost use Rattle.std.specs.Prelude.{◌≡◌, IfOk};
ghost use Rattle.std.specs.Option.{ok_or};
ghost use Rattle.cs_base.specs.Config.{configured};
ghost use Rattle.cs_text.specs.Reading.{GivesStep};
ghost use Rattle.cs_sched.specs.Values.{config_in_range, contract_in, encoded_object, object_in};
ghost use Rattle.cs_tx_value.specs.Object.{ObjectFits};
ghost use Rattle.cs_text.specs.declared.cause.Cause.TheVariants as cause;

use cs_base::{Config, MOST_OBJECT, Sequence};
use cs_lang_token::MOST_TEXT;
use cs_text::{Cause, LineError, read_bytes_within};
use cs_tx::{Encoded, FormError, Object};
use cs_types::{Unjudged, judged};
use std::alloc::Global;

// A configuration of these numbers, which come from fields.
pub(crate) fn config(shards: u64, f: u64, dummies: u64) -> Result<Config, Cause>
    ensures { result ≡ config_in_range (configured shards f dummies) }
{
    let Ok(shards) = u16::try_from(shards) else {
        return Err(Cause::Limit);
    };
    let Ok(f) = u16::try_from(f) else {
        return Err(Cause::Limit);
    };
    let Ok(dummies) = u16::try_from(dummies) else {
        return Err(Cause::Limit);
    };
    match Config::new(shards, f, dummies) {
        Ok(config) => Ok(config),
        Err(_) => Err(Cause::Limit),
    }
}

pub(crate) fn read_contract(alloc: Global, field: &[u8]) -> Result<Sequence<u8>, LineError>
    ensures { GivesStep result (contract_in field.now) }
{
    let text = read_bytes_within(alloc, field, MOST_TEXT)?;
    match judged(alloc, text.as_slice()) {
        Ok(_) => Ok(text),
        Err(Unjudged::Memory) => Err(LineError::Memory),
        Err(Unjudged::Faulty(_)) => Err(LineError::Bad(Cause::Contract)),
    }
}

pub(crate) fn read_object(alloc: Global, field: &[u8]) -> Result<Object, LineError>
    ensures value { GivesStep result (object_in field.now) }
    ensures fits { IfOk result ObjectFits }
{
    let bytes = read_bytes_within(alloc, field, MOST_OBJECT)?;
    decode_object(alloc, bytes.as_slice())
}

// The object of which these bytes are the encoding.
fn decode_object(alloc: Global, bytes: &[u8]) -> Result<Object, LineError>
    ensures value { GivesStep result (ok_or (encoded_object bytes.now) cause.Object) }
    ensures fits { IfOk result ObjectFits }
{
    match Object::decode(alloc, bytes) {
        Ok(object) => Ok(object),
        Err(FormError::Memory) => Err(LineError::Memory),
        Err(FormError::BadForm) => Err(LineError::Bad(Cause::Object)),
        Err(FormError::TooLong) => Err(LineError::Bad(Cause::Object)),
    }
}
