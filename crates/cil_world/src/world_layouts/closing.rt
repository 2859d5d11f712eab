//! Types of fields with generic arguments put in (II.9.8).

ghost use Rattle.std.specs.Prelude.{◌≡◌, [], length, IfOk};
ghost use Rattle.std.specs.List.{list_all};
ghost use Rattle.rules.specs.step_rules.Closing.{plain, standing, is_whole, takes, closed_cell_by};
ghost use Rattle.rules.specs.view_rules.Methods.{head_query};
ghost use Rattle.cil_world.specs.world_layouts.Fields.{numbered_cell};

use crate::world_definitions::Definitions;
use il_base::world_model::{Known, TypeExpr};
use il_base::{NoMemory, TypeId, element};
use machine_words::cil_closing::without_modifiers;
use std::alloc::Global;

/// A type without the modifiers around it (II.7.1).
#[tactic(auto, using(machine_words::proofs::lemmas::cil_closing::PlainLayers::stripping))]
pub(crate) fn plain_of(ty: &TypeExpr) -> &TypeExpr
    ensures { result.now ≡ plain ty.now }
{
    match ty {
        TypeExpr::Prim(_) => ty,
        TypeExpr::Def(_) => ty,
        TypeExpr::Inst(_, _) => ty,
        TypeExpr::Array(_) => ty,
        TypeExpr::ByRef(_) => ty,
        TypeExpr::Var(_) => ty,
        TypeExpr::MVar(_) => ty,
        TypeExpr::Mod {
            required: _,
            by: _,
            inner,
        } => plain_of(inner.get()),
    }
}

/// Whether a type definition has this many generic parameters.
pub(crate) fn takes(definitions: &Definitions<'_>, ty: TypeId, count: usize) -> bool
    ensures { result ≡ takes (head_query definitions.now.recs ty.0) count }
{
    match definitions.head(ty.0) {
        None => false,
        Some(head) => head.params as usize == count,
    }
}

/// Whether a type is closed and can be an argument, an element or a field: neither VOID nor a reference, each generic type
/// with as many arguments as it has parameters.
#[cycle(whole)]
#[tactic(auto, using(machine_words::proofs::lemmas::cil_closing::StandingLayers::standing_whole))]
fn is_whole(definitions: &Definitions<'_>, ty: &TypeExpr) -> bool
    ensures { result ≡ is_whole (standing (head_query definitions.now.recs) ty.now) }
{
    match ty {
        TypeExpr::Prim(code) => *code != element::VOID,
        TypeExpr::Def(id) => takes(definitions, *id, 0),
        TypeExpr::Inst(id, args) => {
            takes(definitions, *id, args.len()) && are_whole(definitions, args.as_slice())
        }
        TypeExpr::Array(of) => is_whole(definitions, of.get()),
        TypeExpr::ByRef(_) => false,
        TypeExpr::Var(_) => false,
        TypeExpr::MVar(_) => false,
        TypeExpr::Mod {
            required: _,
            by: _,
            inner,
        } => is_whole(definitions, inner.get()),
    }
}

#[cycle(whole)]
fn are_whole(definitions: &Definitions<'_>, types: &[TypeExpr]) -> bool
    ensures { result ≡ list_all (λ e. is_whole (standing (head_query definitions.now.recs) e)) types.now }
{
    for one in types {
        if !is_whole(definitions, one) {
            return false;
        }
    }
    true
}

/// The type of a field where its own type has these arguments. None where it is VOID or a reference, or has no meaning.
#[tactic(auto, unfolding(rules::specs::step_rules::Closing::closed_cell_by))]
fn closed_cell(
    alloc: Global,
    definitions: &Definitions<'_>,
    args: &[TypeExpr],
    ty: &TypeExpr,
) -> Result<Option<TypeExpr>, NoMemory>
    ensures { IfOk result (λ closed. closed ≡ closed_cell_by (head_query definitions.now.recs) args.now [] ty.now) }
{
    let whole = ty.subst(alloc, args, &[])?;
    let closed = without_modifiers(whole);
    if !is_whole(definitions, &closed) {
        return Ok(None);
    }
    Ok(Some(closed))
}

/// The closed type of a field, by its id, where its own type has these arguments. None where it is bad or counts as bad.
#[tactic(auto, unfolding(crate::specs::world_layouts::Fields::numbered_cell))]
pub(crate) fn numbered_cell(
    alloc: Global,
    definitions: &Definitions<'_>,
    args: &[TypeExpr],
    field: u32,
) -> Result<Option<TypeExpr>, NoMemory>
    ensures { IfOk result (λ ty. ty ≡ numbered_cell definitions.now.recs args.now field) }
{
    let Some(def) = definitions.field(field) else {
        return Ok(None);
    };
    match &def.typ {
        Known::Good(ty) => closed_cell(alloc, definitions, args, ty),
        Known::Bad(_) => Ok(None),
    }
}
