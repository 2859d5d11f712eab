ghost use Rattle.std.specs.Prelude.{◌≡◌, ◌≤◌, ◌^◌, ◌<◌, ℕ, List, Result, length};
ghost use Rattle.il_base.specs.blob_grammar.Reading.{Fault, whole, type_of_blob, method_of_blob, property_of_blob, field_of_blob, locals_of_blob, instance_of_blob};
ghost use Rattle.sig_blobs.specs.Answers.{Gives, Answers};

use crate::error::{MALFORMED, SigError, Unread};
use crate::methods::{counted_of, field_of, method_of, property_of};
use crate::types::{LEVELS, type_of};
use il_base::{MethodSig, Seq, Sig};
use std::alloc::Global;

/// The type that a TypeSpec's blob spells (II.23.2.14).
pub fn read_type(alloc: Global, bytes: &[u8]) -> Result<Sig, SigError>
    requires { length bytes.now ≤ 4294967295 }
    ensures { Answers result (type_of_blob bytes.now) }
{
    finished(bytes.len(), type_of(alloc, LEVELS, bytes))
}

/// The signature that a method's blob spells (II.23.2.1 to II.23.2.3).
pub fn read_method(alloc: Global, bytes: &[u8]) -> Result<MethodSig, SigError>
    requires { length bytes.now ≤ 4294967295 }
    ensures { Answers result (method_of_blob bytes.now) }
{
    finished(bytes.len(), method_of(alloc, bytes))
}

/// The type that a field's blob spells (II.23.2.4).
pub fn read_field(alloc: Global, bytes: &[u8]) -> Result<Sig, SigError>
    requires { length bytes.now ≤ 4294967295 }
    ensures { Answers result (field_of_blob bytes.now) }
{
    finished(bytes.len(), field_of(alloc, bytes))
}

/// The types of the locals that a StandAloneSig's blob spells (II.23.2.6).
pub fn read_locals(alloc: Global, bytes: &[u8]) -> Result<Seq<Sig>, SigError>
    requires { length bytes.now ≤ 4294967295 }
    ensures { Answers result (locals_of_blob bytes.now) }
{
    finished(bytes.len(), counted_of(alloc, 0x07, bytes))
}

/// The signature that a property's blob spells (II.23.2.5).
pub fn read_property(alloc: Global, bytes: &[u8]) -> Result<MethodSig, SigError>
    requires { length bytes.now ≤ 4294967295 }
    ensures { Answers result (property_of_blob bytes.now) }
{
    finished(bytes.len(), property_of(alloc, bytes))
}

/// The type arguments that a MethodSpec's blob spells (II.23.2.15).
pub fn read_instance(alloc: Global, bytes: &[u8]) -> Result<Seq<Sig>, SigError>
    requires { length bytes.now ≤ 4294967295 }
    ensures { Answers result (instance_of_blob bytes.now) }
{
    finished(bytes.len(), counted_of(alloc, 0x0a, bytes))
}

/// What a blob of `size` bytes gives, by the value in front and the bytes after it: nothing may be left over.
fn finished<T: Drop>(size: usize, read: Result<(T, &[u8]), Unread>) -> Result<T, SigError>
    requires { size ≤ 4294967295 }
    ensures { (given : Result (T × List ℕ) Fault) → Gives (λ x. (x.0, x.1.now)) read.entry given
        → Answers result (whole size given) }
{
    match read {
        Ok((value, [])) => Ok(value),
        Ok((_value, rest)) => Err(SigError::Bad {
            at: size.saturating_sub(rest.len()) as u32,
            what: MALFORMED,
        }),
        Err(Unread::Bad { left, what }) => Err(SigError::Bad {
            at: size.saturating_sub(left) as u32,
            what,
        }),
        Err(Unread::Exhausted) => Err(SigError::NoMemory),
    }
}
