//! The keys of types and members, as lists of numbers.

ghost use Rattle.std.specs.Prelude.{◌≡◌, ◌∷◌, ◌++◌, [], IfOk, OnOk};
ghost use Rattle.std.specs.List.{flat_map};
ghost use Rattle.link_faults.specs.Codes.{bit, type_code, with_text};

use il_base::world_model::TypeExpr;
use il_base::{NoMemory, Seq};

/// The number of a flag.
pub(crate) fn bit(flag: bool) -> u32
    ensures { result ≡ bit flag }
{
    if flag { 1 } else { 0 }
}

/// Adds a count.
pub(crate) fn add_count(code: &mut Seq<u32>, count: usize) -> Result<(), NoMemory>
    ensures { OnOk result (code.new ≡ code.old ++ count ∷ []) }
{
    let Ok(count) = u32::try_from(count) else {
        return Err(NoMemory);
    };
    code.push(count)
}

/// Adds a text with its length before it.
pub(crate) fn add_text(code: &mut Seq<u32>, text: &[u8]) -> Result<(), NoMemory>
    ensures { OnOk result (code.new ≡ code.old ++ with_text text.now []) }
{
    add_count(code, text.len())?;
    for byte in text {
        code.push(u32::from(*byte))?;
    }
    Ok(())
}

/// Adds a number for the kind of a type, and one more.
fn add_pair(code: &mut Seq<u32>, kind: u32, number: u32) -> Result<(), NoMemory>
    ensures { OnOk result (code.new ≡ code.old ++ kind ∷ number ∷ []) }
{
    code.push(kind)?;
    code.push(number)
}

/// Adds a type.
#[cycle(coding)]
#[tactic(auto, using(crate::proofs::CodeLayers::coding))]
pub(crate) fn add_type(code: &mut Seq<u32>, ty: &TypeExpr) -> Result<(), NoMemory>
    ensures { OnOk result (code.new ≡ code.old ++ type_code ty.now) }
{
    match ty {
        TypeExpr::Prim(n) => add_pair(code, 0, u32::from(*n)),
        TypeExpr::Def(id) => add_pair(code, 1, id.0),
        TypeExpr::Inst(id, args) => {
            add_pair(code, 2, id.0)?;
            add_count(code, args.len())?;
            add_types(code, args.as_slice())
        }
        TypeExpr::Array(inner) => {
            code.push(3)?;
            add_type(code, inner.get())
        }
        TypeExpr::ByRef(inner) => {
            code.push(4)?;
            add_type(code, inner.get())
        }
        TypeExpr::Var(n) => add_pair(code, 5, *n),
        TypeExpr::MVar(n) => add_pair(code, 6, *n),
        TypeExpr::Mod {
            required,
            by,
            inner,
        } => {
            add_pair(code, 7, bit(*required))?;
            code.push(by.0)?;
            add_type(code, inner.get())
        }
    }
}

/// Adds types, one after the other.
#[cycle(coding)]
fn add_types(code: &mut Seq<u32>, types: &[TypeExpr]) -> Result<(), NoMemory>
    ensures { OnOk result (code.new ≡ code.old ++ flat_map type_code types.now) }
{
    for ty in types {
        add_type(code, ty)?;
    }
    Ok(())
}
