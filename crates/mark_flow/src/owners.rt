//! The types that members are in.

ghost use Rattle.std.specs.Prelude.{◌≡◌, IfOk};
ghost use Rattle.std.specs.Option.{option_map};
ghost use Rattle.il_base.specs.world_model.Worlds.{type_id};
ghost use Rattle.rules.specs.type_rules.Rows.{owner_of_field};
ghost use Rattle.rules.specs.flow_rules.Flows.{owner_at};
ghost use Rattle.rules.specs.mark_rules.Calls.{row_class};
ghost use Rattle.rules.specs.mark_rules.Properties.{property_owner, event_owner};
ghost use Rattle.rules.specs.site_rules.Items.{owning, class_of_impl};
ghost use Rattle.mark_parts.specs.mark_tables.Assemblies.{all_of, IsMarker};

use il_base::world_model::{AsmRec, index_in};
use il_base::{NoMemory, TypeId, table};
use mark_parts::mark_facts::rows::type_at;
use mark_parts::mark_rows::rows::{event_owner, property_owner};
use mark_parts::mark_tables::marker::Marker;
use rules::link_rules::RowAt;
use type_tables::methods::type_of_method;

/// The type of an assembly in a row, where there is one.
fn type_in(all: &[AsmRec], asm: u32, row: Option<u32>) -> Result<Option<TypeId>, NoMemory>
    ensures { IfOk result (λ t. t ≡ option_map (type_id all.now asm) row) }
{
    match row {
        None => Ok(None),
        Some(row) => {
            let id = type_at(all, RowAt { asm, row })?;
            Ok(Some(id))
        }
    }
}

/// The type that a method is in.
pub(crate) fn owner_at(marker: &Marker<'_>, at: RowAt) -> Result<Option<TypeId>, NoMemory>
    requires { IsMarker marker.now }
    ensures { IfOk result (λ t. t ≡ owner_at (all_of marker.now) at) }
{
    match type_of_method(&marker.tables, at) {
        Err(error) => Err(error),
        Ok(None) => Ok(None),
        Ok(Some(of)) => {
            let id = type_at(marker.tables.world.recs.as_slice(), of)?;
            Ok(Some(id))
        }
    }
}

/// The type that a field is in.
pub(crate) fn type_of_field(marker: &Marker<'_>, at: RowAt) -> Result<Option<TypeId>, NoMemory>
    requires { IsMarker marker.now }
    ensures { IfOk result (λ t. t ≡ owning (all_of marker.now) at owner_of_field) }
{
    let Some(asm) = marker.assembly_at(at.asm) else {
        return Ok(None);
    };
    let owner = asm.owner_of_field(at.row)?;
    type_in(marker.tables.world.recs.as_slice(), at.asm, owner)
}

/// The type that a property is in.
pub(crate) fn type_of_property(marker: &Marker<'_>, at: RowAt) -> Result<Option<TypeId>, NoMemory>
    requires { IsMarker marker.now }
    ensures { IfOk result (λ t. t ≡ owning (all_of marker.now) at property_owner) }
{
    let Some(asm) = marker.assembly_at(at.asm) else {
        return Ok(None);
    };
    let owner = property_owner(asm.scope.rec, at.row);
    type_in(marker.tables.world.recs.as_slice(), at.asm, owner)
}

/// The type that an event is in.
pub(crate) fn type_of_event(marker: &Marker<'_>, at: RowAt) -> Result<Option<TypeId>, NoMemory>
    requires { IsMarker marker.now }
    ensures { IfOk result (λ t. t ≡ owning (all_of marker.now) at event_owner) }
{
    let Some(asm) = marker.assembly_at(at.asm) else {
        return Ok(None);
    };
    let owner = event_owner(asm.scope.rec, at.row);
    type_in(marker.tables.world.recs.as_slice(), at.asm, owner)
}

/// The class of an interface row, by its assembly and row.
fn row_class(all: &[AsmRec], r: RowAt) -> Option<RowAt>
    ensures { result ≡ row_class all.now r }
{
    let rec = all.get(r.asm as usize)?;
    let row = rec.interface_impl.get(r.row as usize)?;
    let class = index_in(table::TYPE_DEF, row.class)?;
    Some(RowAt {
        asm: r.asm,
        row: class,
    })
}

/// The class of an interface row.
pub(crate) fn class_of_impl(all: &[AsmRec], at: RowAt) -> Result<Option<TypeId>, NoMemory>
    ensures { IfOk result (λ t. t ≡ class_of_impl all.now at) }
{
    match row_class(all, at) {
        None => Ok(None),
        Some(class) => {
            let id = type_at(all, class)?;
            Ok(Some(id))
        }
    }
}
