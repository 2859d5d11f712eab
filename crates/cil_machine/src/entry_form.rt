//! The form of an entry method (II.15.4.1.2).

ghost use Rattle.std.specs.Prelude.{◌≡◌, IfOk};
ghost use Rattle.rules.specs.step_rules.Run.{are_entry_params, is_entry, is_entry_return, is_entry_signature, is_strings};
ghost use Rattle.machine_words.specs.cil_closing.Callees.{callee_by};

use il_base::cil_values::Signature;
use il_base::world_model::TypeExpr;
use il_base::{Boxed, NoMemory, element, has_flag, method_flags};
use machine_words::cil_closing::{Callee, is_void};
use std::alloc::Global;

/// Whether a type is `string[]`.
fn is_strings(alloc: Global, ty: &TypeExpr) -> Result<bool, NoMemory>
    ensures { IfOk result (λ yes. yes ≡ is_strings ty.now) }
{
    let of = Boxed::new(alloc, TypeExpr::Prim(element::STRING))?;
    let strings = TypeExpr::Array(of);
    Ok(ty.is_same(&strings))
}

/// Whether there is no parameter, or one `string[]`.
fn are_entry_params(alloc: Global, params: &[TypeExpr]) -> Result<bool, NoMemory>
    ensures { IfOk result (λ yes. yes ≡ are_entry_params params.now) }
{
    match params {
        [] => Ok(true),
        [ty] => is_strings(alloc, ty),
        [_, _, ..] => Ok(false),
    }
}

/// Whether a type is void or int32.
fn is_entry_return(ty: &TypeExpr) -> bool
    ensures { result ≡ is_entry_return ty.now }
{
    is_void(ty) || ty.is_same(&TypeExpr::Prim(element::I4))
}

fn is_entry_signature(alloc: Global, sig: &Signature) -> Result<bool, NoMemory>
    ensures { IfOk result (λ yes. yes ≡ is_entry_signature sig.now) }
{
    let params = are_entry_params(alloc, sig.params.as_slice())?;
    Ok(!sig.this && params && is_entry_return(&sig.ret))
}

/// Whether a method is static, without a parameter or with one `string[]`, and returns nothing or an int32.
pub(crate) fn is_entry(alloc: Global, c: &Callee) -> Result<bool, NoMemory>
    ensures { IfOk result (λ yes. yes ≡ is_entry (callee_by c.now)) }
{
    let form = is_entry_signature(alloc, c.signature.get())?;
    Ok(has_flag(c.method.flags, method_flags::STATIC) && form)
}
