//! Enums by name, with the sizes of their underlying types.

ghost use Rattle.std.specs.Prelude.{◌≡◌, ◌++◌, Some, slice_get, IfOk, OnOk};
ghost use Rattle.il_base.specs.declared.world_model.record.AsmRec.{AsmRec};
ghost use Rattle.rules.specs.type_rules.Rows.{each_row};
ghost use Rattle.rules.specs.mark_rules.Attributes.{enum_names, enums_from};
ghost use Rattle.mark_parts.specs.mark_tables.Assemblies.{recs_of, place_of, rec_of, all_of, IsAssembly, IsMarker};
ghost use Rattle.attribute_values.specs.enum_names.Names.{names_under};
ghost use Rattle.attribute_values.specs.enum_names.Enums.{all_recs, own_rec, enum_of, enum_names_at, enums_in, IsSource};

use crate::enum_names::assembly_names::names_of_assembly;
use crate::enum_names::named::{EnumType, add_named};
use crate::enum_names::paths::path_of;
use attr_blobs::EnumSize;
use il_base::world_model::{AsmRec, TypeDefRow, type_id};
use il_base::{NoMemory, Seq, Text};
use mark_parts::mark_rows::rows::is_enum;
use mark_parts::mark_sizes::enums::enum_size;
use mark_parts::mark_tables::assembly::Assembly;
use mark_parts::mark_tables::marker::Marker;
use rules::link_rules::RowAt;
use std::alloc::Global;
use type_names::TypeNames;
use type_tables::member_search::counted::row_of;

/// An assembly whose enums are listed, and the one from which names find them.
#[derive(Clone, Copy)]
pub struct Source<'a> {
    pub marker: &'a Marker<'a>,
    /// The types of the same world by name.
    pub names: &'a TypeNames<'a>,
    /// The place, from 0, of the assembly from which names find types.
    pub from: u32,
    pub asm: &'a Assembly<'a>,
    /// The names under which `asm` is found.
    pub own: &'a [Text],
}

/// What is kept of the enum in a row, from 0.
fn enum_of(alloc: Global, source: &Source<'_>, row: u32) -> Result<EnumType, NoMemory>
    requires { IsSource source.now }
    ensures { IfOk result (λ e. e ≡ enum_of (all_recs source.now) (place_of source.now.asm.now) (own_rec source.now) row) }
{
    let own = source.asm;
    let asm = own.scope.asm;
    let marker = source.marker;
    let Some(id) = type_id(
        marker.tables.world.recs.as_slice(),
        asm as usize,
        row as usize,
    ) else {
        return Err(NoMemory);
    };
    let size = enum_size(alloc, source.marker, RowAt { asm, row })?;
    let path = path_of(alloc, source.asm, row)?;
    Ok(EnumType { id, size, path })
}

/// Puts the size of the enum in a row, from 0, at the end under each name that finds it.
fn add_enum_at(
    alloc: Global,
    source: &Source<'_>,
    row: u32,
    enums: &mut Seq<EnumSize>,
) -> Result<(), NoMemory>
    requires { IsSource source.now }
    ensures { OnOk result (enums.new ≡ enums.old ++ names_under (all_recs source.now) source.now.from (enum_of (all_recs source.now) (place_of source.now.asm.now) (own_rec source.now) row) source.now.own.now) }
{
    let e = enum_of(alloc, source, row)?;
    add_named(alloc, source.names, source.from, &e, source.own, enums)
}

/// Puts the size of the type in a row, from 0, at the end under each name that finds it, if it is an enum.
#[tactic(auto, using(crate::proofs::lemmas::enum_names::Lists::none_more))]
fn add_type(
    alloc: Global,
    source: &Source<'_>,
    row: u32,
    enums: &mut Seq<EnumSize>,
) -> Result<(), NoMemory>
    requires { IsSource source.now }
    ensures { OnOk result (enums.new ≡ enums.old ++ enum_names_at source.now row) }
{
    let own = source.asm;
    let asm = own.scope.asm;
    match is_enum(source.marker, RowAt { asm, row }) {
        Ok(true) => add_enum_at(alloc, source, row, enums),
        Ok(false) => Ok(()),
        Err(error) => Err(error),
    }
}

/// Puts the sizes of the enums among an assembly's types at the end.
fn add_types(
    alloc: Global,
    source: &Source<'_>,
    types: &[TypeDefRow],
    enums: &mut Seq<EnumSize>,
) -> Result<(), NoMemory>
    requires { IsSource source.now }
    ensures { OnOk result (enums.new ≡ enums.old ++ each_row (enum_names (all_recs source.now) source.now.from (place_of source.now.asm.now) (own_rec source.now)) types.now) }
{
    for (k, _t) in types.iter().enumerate() {
        let row = row_of(k)?;
        add_type(alloc, source, row, enums)?;
    }
    Ok(())
}

/// Puts the sizes of an assembly's enums at the end under each name that finds them from another.
fn add_assembly(
    alloc: Global,
    marker: &Marker<'_>,
    names: &TypeNames<'_>,
    from: u32,
    asm: &Assembly<'_>,
    enums: &mut Seq<EnumSize>,
) -> Result<(), NoMemory>
    requires marker { IsMarker marker.now }
    requires names { names.now ≡ all_of marker.now }
    requires asm { IsAssembly asm.now }
    requires recs { recs_of asm.now ≡ all_of marker.now }
    ensures { OnOk result (enums.new ≡ enums.old ++ each_row (enum_names (all_of marker.now) from (place_of asm.now) (rec_of asm.now)) (rec_of asm.now).type_def) }
{
    let own = names_of_assembly(alloc, asm)?;
    let source = Source {
        marker,
        names,
        from,
        asm,
        own: own.as_slice(),
    };
    add_types(alloc, &source, asm.scope.rec.type_def.as_slice(), enums)?;
    Ok(())
}

/// Puts the sizes of the enums of an assembly, by its place from 0, at the end under each name that finds them from another.
fn add_assembly_at(
    alloc: Global,
    marker: &Marker<'_>,
    names: &TypeNames<'_>,
    from: u32,
    a: usize,
    enums: &mut Seq<EnumSize>,
) -> Result<(), NoMemory>
    requires marker { IsMarker marker.now }
    requires names { names.now ≡ all_of marker.now }
    ensures { OnOk result ((rec : AsmRec) → slice_get (all_of marker.now) a ≡ Some rec → enums.new ≡ enums.old ++ enums_in (all_of marker.now) from a rec) }
{
    let place = row_of(a)?;
    let Some(asm) = marker.assembly_at(place) else {
        return Ok(());
    };
    add_assembly(alloc, marker, names, from, &asm, enums)?;
    Ok(())
}

/// Puts the sizes of the enums of all assemblies at the end under each name that finds them from one.
fn add_assemblies(
    alloc: Global,
    marker: &Marker<'_>,
    names: &TypeNames<'_>,
    from: u32,
    all: &[AsmRec],
    enums: &mut Seq<EnumSize>,
) -> Result<(), NoMemory>
    requires marker { IsMarker marker.now }
    requires names { names.now ≡ all_of marker.now }
    requires all { all.now ≡ all_of marker.now }
    ensures { OnOk result (enums.new ≡ enums.old ++ each_row (enums_in (all_of marker.now) from) all.now) }
{
    for (a, _rec) in all.iter().enumerate() {
        add_assembly_at(alloc, marker, names, from, a, enums)?;
    }
    Ok(())
}

/// The enums of a world by each name that finds them from an assembly, by its place from 0.
#[tactic(auto, unfolding(rules::specs::mark_rules::Attributes::enums_from))]
pub fn enums_from(
    alloc: Global,
    marker: &Marker<'_>,
    names: &TypeNames<'_>,
    from: u32,
) -> Result<Seq<EnumSize>, NoMemory>
    requires marker { IsMarker marker.now }
    requires names { names.now ≡ all_of marker.now }
    ensures { IfOk result (λ enums. enums ≡ enums_from (all_of marker.now) from) }
{
    let mut enums = Seq::new(alloc);
    let all = marker.tables.world.recs.as_slice();
    add_assemblies(alloc, marker, names, from, all, &mut enums)?;
    Ok(enums)
}
