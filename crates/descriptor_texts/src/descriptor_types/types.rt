//! The types of a world by their names.

ghost use Rattle.std.specs.Prelude.{◌≡◌, Some, slice_get, IfOk};
ghost use Rattle.std.specs.Option.{option_map};
ghost use Rattle.il_base.specs.declared.world_model.record.AsmRec.{AsmRec};
ghost use Rattle.rules.specs.link_rules.Types.{at_row};
ghost use Rattle.rules.specs.mark_rules.Roots.{descriptor_type};
ghost use Rattle.mark_parts.specs.mark_tables.Assemblies.{all_of, IsMarker};
ghost use Rattle.descriptor_texts.specs.slashed_names.Names.{AreNames};
ghost use Rattle.descriptor_texts.specs.descriptor_types.Rows.{AreTypeRows};
ghost use Rattle.descriptor_texts.specs.descriptor_types.Types.{AreTypes};

use crate::descriptor_types::rows::TypeRows;
use crate::slashed_names::names::SlashedNames;
use il_base::NoMemory;
use il_base::world_model::AsmRec;
use mark_parts::mark_tables::marker::Marker;
use rules::link_rules::RowAt;
use std::alloc::Global;
use type_tables::member_search::counted::row_of;
use type_tables::member_search::linked::assembly_at;

/// The types of each assembly of a world by their full names, with `/` before the names of nested types.
#[derive(Drop)]
pub struct DescriptorTypes<'a> {
    rows: Vec<TypeRows<'a>>,
}

/// The types of an assembly, by its place from 0.
#[tactic(auto, using(crate::proofs::lemmas::descriptor_types::First::no_assembly, crate::proofs::lemmas::descriptor_types::First::assembly_there))]
fn rows_at<'a>(
    alloc: Global,
    names: &'a SlashedNames,
    marker: &Marker<'_>,
    asm: u32,
) -> Result<TypeRows<'a>, NoMemory>
    requires marker { IsMarker marker.now }
    requires names { AreNames (all_of marker.now) names.now }
    ensures { IfOk result (λ rows. (rec : AsmRec) → slice_get (all_of marker.now) asm ≡ Some rec → AreTypeRows rec rows) }
{
    let Some(here) = marker.assembly_at(asm) else {
        return Ok(TypeRows::none(alloc));
    };
    let rows = TypeRows::of(alloc, names, &here)?;
    Ok(rows)
}

/// A row of an assembly.
fn placed(asm: u32, row: Option<u32>) -> Option<RowAt>
    ensures { result ≡ option_map (at_row asm) row }
{
    match row {
        Some(row) => Some(RowAt { asm, row }),
        None => None,
    }
}

impl<'a> DescriptorTypes<'a> {
    /// The types of a world, by these names.
    pub fn of(
        alloc: Global,
        names: &'a SlashedNames,
        marker: &Marker<'_>,
    ) -> Result<DescriptorTypes<'a>, NoMemory>
        requires marker { IsMarker marker.now }
        requires names { AreNames (all_of marker.now) names.now }
        ensures { IfOk result (AreTypes (all_of marker.now)) }
    {
        let count = row_of(marker.tables.world.recs.len())?;
        let mut rows = Vec::new(alloc);
        for asm in 0..count {
            let own = rows_at(alloc, names, marker, asm)?;
            rows.push(own)?;
        }
        Ok(DescriptorTypes { rows })
    }

    /// The first type of an assembly, by its place from 0, that has this name; `<Module>` is never found.
    pub fn get(&self, all: &[AsmRec], asm: u32, name: &[u8]) -> Option<RowAt>
        requires { AreTypes all.now self.now }
        ensures { result ≡ descriptor_type all.now asm name.now }
    {
        let made = self.rows.as_slice();
        let Some(_rec) = assembly_at(all, asm) else {
            return None;
        };
        let row = made[asm as usize].get(name);
        placed(asm, row)
    }
}
