//! What a call asks of a method.

ghost use Rattle.std.specs.Prelude.{◌≡◌, IfOk};
ghost use Rattle.std.specs.Bool.{beq};
ghost use Rattle.rules.specs.step_rules.Dispatch.{is_abstract, is_called_alike, is_virtual, slots_of};

use il_base::cil_values::{Method, Signature};
use il_base::{NoMemory, has_flag, method_flags};
use machine_words::cil_closing::is_void;

/// Whether the method has no body of its own (II.15.4.2.4).
pub fn is_abstract(m: &Method) -> bool
    ensures { result ≡ is_abstract m.now }
{
    has_flag(m.flags, method_flags::ABSTRACT)
}

/// Whether a type below can have another method in its slot (II.15.4.2.4).
pub fn is_virtual(m: &Method) -> bool
    ensures { result ≡ is_virtual m.now }
{
    has_flag(m.flags, method_flags::VIRTUAL)
}

/// How many arguments a method takes, `this` among them. 18446744073709551616 are answered as want of memory.
pub fn slots_of(sig: &Signature) -> Result<usize, NoMemory>
    ensures { IfOk result (λ n. n ≡ slots_of sig.now) }
{
    let params = sig.params.len();
    if !sig.this {
        return Ok(params);
    }
    if params == usize::MAX {
        return Err(NoMemory);
    }
    Ok(params + 1)
}

/// Whether two methods take the same number of arguments, and both return a value or both nothing.
pub(crate) fn is_called_alike(a: &Signature, b: &Signature) -> Result<bool, NoMemory>
    ensures { IfOk result (λ alike. alike ≡ is_called_alike a.now b.now) }
{
    let wanted = slots_of(a)?;
    let given = slots_of(b)?;
    Ok(wanted == given && is_void(&a.ret) == is_void(&b.ret))
}
