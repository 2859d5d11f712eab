//! Value types in the instance fields of value types.

ghost use Rattle.std.specs.Prelude.{◌≡◌, ◌++◌, unwrap_or, slice_get, false, IfOk, OnOk};
ghost use Rattle.std.specs.List.{flat_map};
ghost use Rattle.rules.specs.link_rules.Cycles.{is_static_field};
ghost use Rattle.rules.specs.link_rules.Faults.{numbered};
ghost use Rattle.rules.specs.link_rules.Members.{run_of};
ghost use Rattle.link_faults.specs.Values.{flagged, held_in, held_in_field, held_by, all_held};

use crate::scope::Scope;
use crate::value_types::is_value;
use il_base::world_model::{AsmRec, FieldRow, TypeDefRow, TypeExpr};
use il_base::{AsmId, NoMemory, Seq, TypeId, field_flags};
use std::alloc::Global;

/// Whether the type of an id has a flag among these, which are in the order of ids.
pub(crate) fn has_flag(flags: &[bool], id: TypeId) -> bool
    ensures { result ≡ unwrap_or (slice_get flags.now id.0) false }
{
    match flags.get(id.0 as usize) {
        Some(flag) => *flag,
        None => false,
    }
}

/// Adds the value types in a type: the type itself where it is one, and those in the arguments of a value type. Elements of arrays
/// and arguments of classes don't count.
#[cycle(holding)]
#[tactic(auto, using(crate::proofs::HeldLayers::holding))]
fn add_held(values: &[bool], ty: &TypeExpr, held: &mut Seq<u32>) -> Result<(), NoMemory>
    ensures { OnOk result (held.new ≡ held.old ++ held_in values.now ty.now) }
{
    match ty {
        TypeExpr::Def(id) => {
            if has_flag(values, *id) {
                held.push(id.0)
            } else {
                Ok(())
            }
        }
        TypeExpr::Inst(id, args) => {
            if has_flag(values, *id) {
                held.push(id.0)?;
                add_all_held(values, args.as_slice(), held)
            } else {
                Ok(())
            }
        }
        TypeExpr::Mod { inner, .. } => add_held(values, inner.get(), held),
        TypeExpr::Prim(_) => Ok(()),
        TypeExpr::Array(_) => Ok(()),
        TypeExpr::ByRef(_) => Ok(()),
        TypeExpr::Var(_) => Ok(()),
        TypeExpr::MVar(_) => Ok(()),
    }
}

/// Adds the value types in some types, one after the other.
#[cycle(holding)]
fn add_all_held(values: &[bool], types: &[TypeExpr], held: &mut Seq<u32>) -> Result<(), NoMemory>
    ensures { OnOk result (held.new ≡ held.old ++ flat_map (held_in values.now) types.now) }
{
    for ty in types {
        add_held(values, ty, held)?;
    }
    Ok(())
}

/// The rows of a run, which begins and ends at rows from 1.
fn run_of(rows: &[FieldRow], first: u32, end: u32) -> &[FieldRow]
    ensures { result.now ≡ run_of first end rows.now }
{
    let begin = first.saturating_sub(1) as usize;
    if begin > rows.len() {
        return &[];
    }
    let rest = &rows[begin..];
    let count = end.saturating_sub(first) as usize;
    if count > rest.len() {
        rest
    } else {
        &rest[..count]
    }
}

/// Adds the value types in an instance field. A field with a bad signature has none.
fn add_field(
    alloc: Global,
    scope: &Scope<'_>,
    values: &[bool],
    asm: AsmId,
    field: &FieldRow,
    held: &mut Seq<u32>,
) -> Result<(), NoMemory>
    ensures { OnOk result (held.new ≡ held.old ++ held_in_field scope.now.all.now scope.now.links.now values.now asm.0 field.now) }
{
    if il_base::has_flag(field.flags, field_flags::STATIC) {
        return Ok(());
    }
    match scope.type_of_field(alloc, asm, &field.signature)? {
        None => Ok(()),
        Some(ty) => add_held(values, &ty, held),
    }
}

/// The value types in the instance fields of a type; none where it is no value type.
fn held_by(
    alloc: Global,
    scope: &Scope<'_>,
    values: &[bool],
    asm: AsmId,
    rec: &AsmRec,
    at: usize,
    row: &TypeDefRow,
) -> Result<Seq<u32>, NoMemory>
    ensures { IfOk result (λ held. held ≡ held_by scope.now.all.now scope.now.links.now values.now asm.0 rec.now at row.now) }
{
    let mut held = Seq::new(alloc);
    if !is_value(scope, asm, at, row)? {
        return Ok(held);
    }
    for field in run_of(
        rec.field.as_slice(),
        row.field_list_first,
        row.field_list_end,
    ) {
        add_field(alloc, scope, values, asm, field, &mut held)?;
    }
    Ok(held)
}

/// Adds the value types in the instance fields of each value type of an assembly.
fn add_assembly(
    alloc: Global,
    scope: &Scope<'_>,
    values: &[bool],
    asm: AsmId,
    rec: &AsmRec,
    graph: &mut Vec<Seq<u32>>,
) -> Result<(), NoMemory>
    ensures { OnOk result (graph.new.items ≡ graph.old.items ++ numbered (held_by scope.now.all.now scope.now.links.now values.now asm.0 rec.now) 0 rec.now.type_def) }
{
    for (at, row) in rec.type_def.as_slice().iter().enumerate() {
        let held = held_by(alloc, scope, values, asm, rec, at, row)?;
        graph.push(held)?;
    }
    Ok(())
}

/// The value types in the instance fields of each value type, in the order of ids.
pub(crate) fn all_held(
    alloc: Global,
    scope: &Scope<'_>,
    values: &[bool],
) -> Result<Vec<Seq<u32>>, NoMemory>
    ensures { IfOk result (λ graph. graph.items ≡ all_held scope.now.all.now scope.now.links.now values.now) }
{
    let mut graph = Vec::new(alloc);
    for (at, rec) in scope.all.iter().enumerate() {
        let Ok(asm) = u32::try_from(at) else {
            return Err(NoMemory);
        };
        add_assembly(alloc, scope, values, AsmId(asm), rec, &mut graph)?;
    }
    Ok(graph)
}
