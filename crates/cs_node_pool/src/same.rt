//! Equality of sessions.
ghost use Rattle.std.specs.Prelude.{◌≡◌, ◌↔◌, IsTrue};

use cs_tx::{Digest, Object, Session, Trace, Value};

/// What a session is made of.
trait Part {
    ghost use Rattle.std.specs.Prelude.{◌≡◌, ◌↔◌, IsTrue};

    /// Whether the two are equal.
    fn equals(&self, other: &Self) -> bool
        ensures { IsTrue result ↔ (self.now ≡ other.now) };
}

fn same_parts<P: Part>(a: &[P], b: &[P]) -> bool
    ensures { IsTrue result ↔ (a.now ≡ b.now) }
{
    if a.len() != b.len() {
        return false;
    }
    for i in 0..a.len() {
        if !a[i].equals(&b[i]) {
            return false;
        }
    }
    true
}

impl Part for Value {
    fn equals(&self, other: &Value) -> bool {
        self.same(other)
    }
}

impl Part for Object {
    fn equals(&self, other: &Object) -> bool {
        self.same(other)
    }
}

impl Part for (Digest, Object) {
    fn equals(&self, other: &(Digest, Object)) -> bool {
        self.0 == other.0 && self.1.same(&other.1)
    }
}

impl Part for (u16, u64) {
    fn equals(&self, other: &(u16, u64)) -> bool {
        self.0 == other.0 && self.1 == other.1
    }
}

impl Part for Trace {
    fn equals(&self, other: &Trace) -> bool {
        if self.contract != other.contract || self.method.as_slice() != other.method.as_slice() {
            return false;
        }
        if !same_parts(self.inputs.as_slice(), other.inputs.as_slice()) {
            return false;
        }
        if !same_parts(self.references.as_slice(), other.references.as_slice()) {
            return false;
        }
        if !same_parts(self.parameters.as_slice(), other.parameters.as_slice()) {
            return false;
        }
        if !same_parts(self.outputs.as_slice(), other.outputs.as_slice()) {
            return false;
        }
        if self.deps.as_slice() != other.deps.as_slice() {
            return false;
        }
        same_parts(self.returns.as_slice(), other.returns.as_slice())
    }
}

/// Whether two sessions are equal.
pub fn same_session(a: &Session, b: &Session) -> bool
    ensures { IsTrue result ↔ (a.now ≡ b.now) }
{
    if a.number != b.number {
        return false;
    }
    if !same_parts(a.dummies.as_slice(), b.dummies.as_slice()) {
        return false;
    }
    same_parts(a.tx.traces.as_slice(), b.tx.traces.as_slice())
}
