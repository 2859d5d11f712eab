//! The names of all types of a world.

ghost use Rattle.std.specs.Prelude.{◌≡◌, Some, IfOk};
ghost use Rattle.rules.specs.mark_rules.Roots.{slashed_name, definition_slashed};
ghost use Rattle.mark_parts.specs.mark_tables.Assemblies.{rec_of, all_of, IsAssembly, IsMarker};
ghost use Rattle.descriptor_texts.specs.slashed_names.Names.{names_in, names_at, text_in, AreNames};

use crate::slashed_names::chain::Chain;
use il_base::world_model::AsmRec;
use il_base::{NoMemory, Seq, Text, TypeId};
use mark_parts::mark_tables::assembly::Assembly;
use mark_parts::mark_tables::marker::Marker;
use rules::link_rules::RowAt;
use std::alloc::Global;
use type_tables::member_search::counted::row_of;
use type_tables::member_search::homes::type_home;

/// The full name of each type of a world, with `/` before the names of nested types, in UTF-8.
#[derive(Drop)]
pub struct SlashedNames {
    /// Of each assembly the names of its types.
    names: Seq<Seq<Text>>,
}

/// The name of a type of an assembly, by its row from 0.
fn name_of(alloc: Global, asm: &Assembly<'_>, row: u32) -> Result<Text, NoMemory>
    requires { IsAssembly asm.now }
    ensures { IfOk result (λ name. name ≡ slashed_name (rec_of asm.now) row) }
{
    let mut name = Seq::new(alloc);
    let chain = Chain::of(alloc, asm, row)?;
    chain.put(asm.scope.rec, &mut name)?;
    Ok(name)
}

/// The names of the types of an assembly.
fn names_in(alloc: Global, asm: &Assembly<'_>) -> Result<Seq<Text>, NoMemory>
    requires { IsAssembly asm.now }
    ensures { IfOk result (λ names. names ≡ names_in (rec_of asm.now)) }
{
    let count = row_of(asm.scope.rec.type_def.len())?;
    let mut names = Seq::new(alloc);
    for row in 0..count {
        let name = name_of(alloc, asm, row)?;
        names.push(name)?;
    }
    Ok(names)
}

/// The names of the types of an assembly, by its place from 0.
fn names_at(alloc: Global, marker: &Marker<'_>, asm: u32) -> Result<Seq<Text>, NoMemory>
    requires { IsMarker marker.now }
    ensures { IfOk result (λ names. names ≡ names_at (all_of marker.now) asm) }
{
    let Some(here) = marker.assembly_at(asm) else {
        return Ok(Seq::new(alloc));
    };
    let names = names_in(alloc, &here)?;
    Ok(names)
}

impl SlashedNames {
    /// The names of all types of a world.
    pub fn of(alloc: Global, marker: &Marker<'_>) -> Result<SlashedNames, NoMemory>
        requires { IsMarker marker.now }
        ensures { IfOk result (AreNames (all_of marker.now)) }
    {
        let count = row_of(marker.tables.world.recs.len())?;
        let mut names = Seq::new(alloc);
        for asm in 0..count {
            let own = names_at(alloc, marker, asm)?;
            names.push(own)?;
        }
        Ok(SlashedNames { names })
    }

    /// The name of the type in a row; empty where there is no such row.
    pub fn name_at(&self, at: RowAt) -> &[u8]
        ensures { result.now ≡ text_in self.now at }
    {
        match self.names.get(at.asm as usize) {
            None => &[],
            Some(names) => match names.get(at.row as usize) {
                None => &[],
                Some(name) => name.as_slice(),
            },
        }
    }

    /// The name of a type's definition; empty where there is no such type.
    pub fn definition(&self, all: &[AsmRec], id: TypeId) -> Result<&[u8], NoMemory>
        requires { AreNames all.now self.now }
        ensures { IfOk result (λ name. name.now ≡ definition_slashed all.now (Some id)) }
    {
        match type_home(all, id) {
            Ok(Some(at)) => Ok(self.name_at(at)),
            Ok(None) => Ok(&[]),
            Err(error) => Err(error),
        }
    }
}
