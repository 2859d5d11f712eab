//! An assembly whose attributes are read.

ghost use Rattle.std.specs.Prelude.{◌≡◌, slice_get, IfOk};
ghost use Rattle.std.specs.Option.{option_copied};
ghost use Rattle.mark_parts.specs.mark_tables.Assemblies.{IsMarker, IsAssemblyAt};
ghost use Rattle.attribute_values.specs.Tables.{AreAttributeTables};
ghost use Rattle.attribute_values.specs.Readers.{IsReader};

use crate::attribute_kinds::site::Site;
use crate::tables::AttributeTables;
use attr_blobs::EnumSize;
use il_base::{NoMemory, Seq};
use mark_parts::mark_tables::assembly::Assembly;
use mark_parts::mark_tables::marker::Marker;
use type_names::TypeNames;

/// An assembly of a world, with what its attributes are read by.
#[derive(Clone, Copy)]
pub struct Reader<'a> {
    pub site: Site<'a>,
    /// The types of the same world by name.
    pub names: &'a TypeNames<'a>,
    /// The enums that names find from the assembly.
    pub enums: &'a Seq<EnumSize>,
}

/// The list in a place, from 0.
fn enums_at(lists: &[Seq<EnumSize>], place: u32) -> Option<&Seq<EnumSize>>
    ensures { option_copied result ≡ slice_get lists.now place }
{
    lists.get(place as usize)
}

/// The reader of an assembly, which has this place, from 0.
pub fn reader_of<'a>(
    marker: &'a Marker<'a>,
    tables: &'a AttributeTables<'a>,
    asm: Assembly<'a>,
    place: u32,
) -> Result<Reader<'a>, NoMemory>
    requires marker { IsMarker marker.now }
    requires tables { AreAttributeTables marker.now tables.now }
    requires asm { IsAssemblyAt marker.now place asm }
    ensures is { IfOk result IsReader }
    ensures marker { IfOk result (λ r. r.site.marker.now ≡ marker.now) }
    ensures asm { IfOk result (λ r. r.site.asm ≡ asm.entry) }
{
    let Some(enums) = enums_at(tables.enums.as_slice(), place) else {
        return Err(NoMemory);
    };
    let site = Site {
        marker,
        index: &tables.index,
        asm,
    };
    Ok(Reader {
        site,
        names: &tables.names,
        enums,
    })
}
