//! Methods with their closed uses.

ghost use Rattle.std.specs.Prelude.{◌≡◌, IfOk};
ghost use Rattle.std.specs.Option.{option_map};
ghost use Rattle.rules.specs.step_rules.Closing.{callee_of, closed_signature};
ghost use Rattle.machine_words.specs.cil_closing.Callees.{callee_by, signature_by};

use crate::cil_closing::closed_types::{closed_return, closed_slots};
use crate::cil_closing::plain::args_of;
use crate::cil_closing::settled::is_settled;
use crate::cil_queries::Answers;
use il_base::NoMemory;
use il_base::cil_values::{Method, Signature};
use il_base::world_model::{Known, MethodUse};
use std::alloc::Global;

/// A signature with the arguments of the type and of the method put in.
#[derive(Drop)]
pub enum ClosedSignature<'a> {
    /// The method's own, whose types are as they are in every use.
    Own(&'a Signature),
    Made(Signature),
}

impl ClosedSignature<'_> {
    pub fn get(&self) -> &Signature
        ensures { result.now ≡ signature_by self.now }
    {
        match self {
            ClosedSignature::Own(sig) => *sig,
            ClosedSignature::Made(sig) => sig,
        }
    }
}

/// A method that is called.
#[derive(Drop)]
pub struct Callee<'a> {
    /// The closed use.
    pub called: MethodUse,
    pub method: &'a Method,
    /// Its signature with the arguments of the type and of the method put in.
    pub signature: ClosedSignature<'a>,
}

/// The method of a closed use. None where no type's run holds it, its signature has no meaning, or the use has another number
/// of arguments than the method has parameters.
#[tactic(auto, unfolding(rules::specs::step_rules::Closing::callee_of))]
pub fn callee_of<'a, Q: Answers>(
    alloc: Global,
    q: &'a Q,
    called: MethodUse,
) -> Result<Option<Callee<'a>>, NoMemory>
    ensures { IfOk result (λ found. option_map callee_by found ≡ callee_of (Q.queries q.now) called) }
{
    let Some(method) = q.method(called.method.0) else {
        return Ok(None);
    };
    let Known::Good(sig) = &method.signature else {
        return Ok(None);
    };
    if called.args.len() != sig.own as usize {
        return Ok(None);
    }
    if is_settled(q, sig) {
        return Ok(Some(Callee {
            called,
            method,
            signature: ClosedSignature::Own(sig),
        }));
    }
    let Some(signature) = closed_signature(alloc, q, &called, sig)? else {
        return Ok(None);
    };
    Ok(Some(Callee {
        called,
        method,
        signature: ClosedSignature::Made(signature),
    }))
}

/// The signature of a closed use. None where one of its types has no meaning.
#[tactic(auto, unfolding(rules::specs::step_rules::Closing::closed_signature))]
fn closed_signature<Q: Answers>(
    alloc: Global,
    q: &Q,
    called: &MethodUse,
    sig: &Signature,
) -> Result<Option<Signature>, NoMemory>
    ensures { IfOk result (λ closed. closed ≡ closed_signature (Q.queries q.now) called.now sig.now) }
{
    let targs = args_of(&called.owner);
    let margs = called.args.as_slice();
    let Some(params) = closed_slots(alloc, q, targs, margs, sig.params.as_slice())? else {
        return Ok(None);
    };
    let Some(ret) = closed_return(alloc, q, targs, margs, &sig.ret)? else {
        return Ok(None);
    };
    Ok(Some(Signature {
        this: sig.this,
        own: sig.own,
        params,
        ret,
    }))
}
