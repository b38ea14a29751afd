//! What is signed of a trace.
ghost use Rattle.std.specs.Prelude.{◌≡◌};
ghost use Rattle.cs_tx_types.specs.Transaction.{trace_front, trace_back};
ghost use Rattle.cs_native.specs.Message.{without_parameters, message_of_trace};
ghost use Rattle.cs_native.specs.Taking.{Takes};

use crate::taking::{take_counted, take_deps, take_keyed, take_name, take_objects};
use crate::view::NativeView;
use cs_tx_value::Digest;
use sha2::{Digest as Hasher, Sha256};

fn take_front(view: &NativeView<'_>, hasher: &mut Sha256)
    ensures { Takes hasher.old hasher.new (trace_front view.now) }
{
    view.fits();
    hasher.update(*view.contract());
    take_name(view.method(), hasher);
    take_keyed(view.inputs(), hasher);
    take_keyed(view.references(), hasher);
}

// All else but the parameters, in whose place no value stands.
fn take_back(view: &NativeView<'_>, hasher: &mut Sha256)
    ensures { Takes hasher.old hasher.new (trace_back (without_parameters view.now)) }
{
    view.fits();
    hasher.update([0]);
    take_objects(view.outputs(), hasher);
    take_counted(view.returns(), hasher);
    take_deps(view.deps(), hasher);
}

/// The message of a trace: SHA-256 of the letter W and the trace without its parameters, of which a
/// signature is made. It takes no memory.
pub fn message(view: &NativeView<'_>) -> Digest
    ensures { result ≡ message_of_trace view.now }
{
    let mut hasher = Sha256::new();
    hasher.update([b'W']);
    take_front(view, &mut hasher);
    take_back(view, &mut hasher);
    hasher.finalize()
}
