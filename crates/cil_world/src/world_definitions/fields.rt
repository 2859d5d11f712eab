//! The fields of a world.

ghost use Rattle.std.specs.Prelude.{◌≡◌, ◌++◌, IfOk, OnOk};
ghost use Rattle.std.specs.Option.{option_copied};
ghost use Rattle.rules.specs.link_rules.Members.{fields_in};
ghost use Rattle.mark_parts.specs.mark_tables.Assemblies.{all_of, IsMarker};
ghost use Rattle.rules.specs.view_rules.Methods.{field_at, field_query};
ghost use Rattle.cil_world.specs.world_methods.Rows.{rows_of, rows_from};

use crate::world_definitions::field_rows::{bytes_at, field_at};
use crate::world_methods::rows::in_place;
use il_base::NoMemory;
use il_base::cil_values::FieldDef;
use il_base::world_model::{AsmRec, World};
use mark_parts::mark_tables::marker::Marker;
use rules::link_rules::RowAt;
use std::alloc::Global;
use std::marker::Model;
use type_tables::member_search::counted::row_of;

/// The fields of a world, made once. Contracts see the world, which a link gave.
#[derive(Drop)]
pub struct Fields<'w> {
    world: &'w World,
    /// By their places in the world.
    rows: Vec<Option<FieldDef>>,
}

impl<'w> Model for Fields<'w> {
    ghost use Rattle.std.specs.Prelude.{◌≡◌, ℕ};
    ghost use Rattle.il_base.specs.declared.world_model.world.World.{World};
    ghost use Rattle.il_base.specs.contracts.world_model.world.World as of_world;
    ghost use Rattle.rules.specs.view_rules.Methods.{field_query};
    ghost use Rattle.cil_world.specs.world_methods.Rows.{in_place};

    ghost Value = { World };

    ghost coded = { of_world.the_row.coded };

    ghost view = { λ f. f.world.now };

    ghost invariant = { λ f. (n : ℕ) → in_place f.rows.items n ≡ field_query f.world.now.recs n };
}

/// Puts the fields of an assembly at the end.
fn add_fields(
    alloc: Global,
    marker: &Marker<'_>,
    a: usize,
    count: usize,
    rows: &mut Vec<Option<FieldDef>>,
) -> Result<(), NoMemory>
    requires { IsMarker marker.now }
    ensures { OnOk result (rows.new.items ≡ rows.old.items ++ rows_of (field_at (all_of marker.now)) a count) }
{
    let asm = row_of(a)?;
    let places = bytes_at(alloc, marker, asm)?;
    for k in 0..count {
        let row = row_of(k)?;
        let one = field_at(alloc, marker, &places, RowAt { asm, row })?;
        rows.push(one)?;
    }
    Ok(())
}

/// The fields of these assemblies, which are the first of a world.
fn fields_of(
    alloc: Global,
    marker: &Marker<'_>,
    all: &[AsmRec],
) -> Result<Vec<Option<FieldDef>>, NoMemory>
    requires { IsMarker marker.now }
    ensures { IfOk result (λ rows. rows.items ≡ rows_from fields_in (field_at (all_of marker.now)) 0 all.now) }
{
    let mut rows = Vec::new(alloc);
    for (a, rec) in all.iter().enumerate() {
        add_fields(alloc, marker, a, rec.field.len(), &mut rows)?;
    }
    Ok(rows)
}

impl<'w> Fields<'w> {
    /// The fields of a world that a link gave.
    pub fn of(alloc: Global, marker: &Marker<'w>) -> Result<Fields<'w>, NoMemory>
        requires { IsMarker marker.now }
        ensures { IfOk result (λ f. f ≡ marker.now.tables.world.now) }
    {
        let world = marker.tables.world;
        let rows = fields_of(alloc, marker, world.recs.as_slice())?;
        Ok(Fields { world, rows })
    }

    /// A field, by its place in the world from 0. It takes no memory.
    pub fn field(&self, field: u32) -> Option<&FieldDef>
        ensures { option_copied result ≡ field_query self.now.recs field }
    {
        in_place(self.rows.as_slice(), field)
    }
}
