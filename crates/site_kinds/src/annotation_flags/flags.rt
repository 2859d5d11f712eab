//! The kinds of members that reflection may ask of what has an annotation.

ghost use Rattle.std.specs.Prelude.{◌≡◌, suc, IfOk, if◌then◌else◌};
ghost use Rattle.rules.specs.mark_rules.Annotations.{field_holds, slot_kinds, field_kinds};
ghost use Rattle.mark_parts.specs.mark_tables.Assemblies.{all_of, IsMarker};
ghost use Rattle.attribute_values.specs.Tables.{AreAttributeTables};
ghost use Rattle.site_kinds.specs.annotation_flags.Told.{holder_told};
ghost use Rattle.rules.specs.site_rules.Flags.{parameter_holds, return_holds, flags_of};

use crate::annotation_flags::generic::generic_kinds;
use crate::annotation_flags::holder::Holder;
use crate::annotation_flags::slots::{field_kinds, slot_kinds};
use crate::annotation_flags::types::{field_holds, parameter_holds, return_holds};
use attribute_values::tables::AttributeTables;
use il_base::{NoMemory, table};
use mark_parts::mark_tables::marker::Marker;
use rules::link_rules::RowAt;
use std::alloc::Global;

/// The kinds of a method's parameter, from 0, if it is of a type that can name a type.
fn parameter_flags<'a>(
    alloc: Global,
    marker: &'a Marker<'a>,
    tables: &'a AttributeTables<'a>,
    at: RowAt,
    n: u32,
) -> Result<u32, NoMemory>
    requires marker { IsMarker marker.now }
    requires tables { AreAttributeTables marker.now tables.now }
    ensures { IfOk result (λ kinds. kinds ≡ (if parameter_holds (all_of marker.now) at n then slot_kinds (all_of marker.now) at (suc n) else 0)) }
{
    let Some(sequence) = n.checked_add(1) else {
        return Err(NoMemory);
    };
    match parameter_holds(alloc, marker, at, n) {
        Ok(true) => slot_kinds(alloc, marker, tables, at, sequence),
        Ok(false) => Ok(0),
        Err(error) => Err(error),
    }
}

/// The kinds of what a method returns, if it is of a type that can name a type.
fn return_flags<'a>(
    alloc: Global,
    marker: &'a Marker<'a>,
    tables: &'a AttributeTables<'a>,
    at: RowAt,
) -> Result<u32, NoMemory>
    requires marker { IsMarker marker.now }
    requires tables { AreAttributeTables marker.now tables.now }
    ensures { IfOk result (λ kinds. kinds ≡ (if return_holds (all_of marker.now) at then slot_kinds (all_of marker.now) at 0 else 0)) }
{
    match return_holds(alloc, marker, at) {
        Ok(true) => slot_kinds(alloc, marker, tables, at, 0),
        Ok(false) => Ok(0),
        Err(error) => Err(error),
    }
}

/// The kinds of a field, if it is of a type that can name a type.
fn field_flags<'a>(
    alloc: Global,
    marker: &'a Marker<'a>,
    tables: &'a AttributeTables<'a>,
    at: RowAt,
) -> Result<u32, NoMemory>
    requires marker { IsMarker marker.now }
    requires tables { AreAttributeTables marker.now tables.now }
    ensures { IfOk result (λ kinds. kinds ≡ (if field_holds (all_of marker.now) at then field_kinds (all_of marker.now) at else 0)) }
{
    match field_holds(alloc, marker, at) {
        Ok(true) => field_kinds(alloc, marker, tables, at),
        Ok(false) => Ok(0),
        Err(error) => Err(error),
    }
}

/// The kinds of members that reflection may ask of what a holder has, as bits (`rules::mark_rules::member_kinds`); 0 without an
/// annotation, and for a parameter, a return or a field whose type is neither System.Type nor System.String.
#[tactic(auto, unfolding(rules::specs::site_rules::Flags::flags_of))]
pub fn flags_of<'a>(
    alloc: Global,
    marker: &'a Marker<'a>,
    tables: &'a AttributeTables<'a>,
    holder: Holder,
) -> Result<u32, NoMemory>
    requires marker { IsMarker marker.now }
    requires tables { AreAttributeTables marker.now tables.now }
    ensures { IfOk result (λ kinds. kinds ≡ flags_of (all_of marker.now) (holder_told holder)) }
{
    match holder {
        Holder::Parameter(at, n) => parameter_flags(alloc, marker, tables, at, n),
        Holder::Return(at) => return_flags(alloc, marker, tables, at),
        Holder::Field(at) => field_flags(alloc, marker, tables, at),
        Holder::TypeParameter(at, n) => {
            generic_kinds(alloc, marker, tables, at, table::TYPE_DEF, n)
        }
        Holder::MethodParameter(at, n) => {
            generic_kinds(alloc, marker, tables, at, table::METHOD_DEF, n)
        }
    }
}
