//! The rows of maps, and of methods that take the place of others.

ghost use Rattle.std.specs.Prelude.{IfOk};
ghost use Rattle.merged_tables.specs.Parts.{AreOutputParts, output_in};
ghost use Rattle.merged_tables.specs.Rows.{AreMapRows};

use crate::merged_impls::laws::impls_tell;
use crate::merged_impls::method_impls;
use crate::merged_maps::event_maps::event_maps;
use crate::merged_maps::laws::maps_tell;
use crate::merged_maps::property_maps::property_maps;
use crate::parts::OutputParts;
use il_base::world_model::{EventMapRow, MethodImplRow, PropertyMapRow};
use il_base::{NoMemory, Seq};
use std::alloc::Global;

/// PropertyMap, EventMap and MethodImpl.
#[derive(Drop)]
pub struct MapRows {
    pub properties: Seq<PropertyMapRow>,
    pub events: Seq<EventMapRow>,
    pub impls: Seq<MethodImplRow>,
}

/// The rows of the output.
pub(crate) fn map_rows(alloc: Global, parts: &OutputParts<'_>) -> Result<MapRows, NoMemory>
    requires { AreOutputParts parts.now }
    ensures { IfOk result (AreMapRows (output_in parts.now)) }
{
    maps_tell();
    impls_tell();
    let recs = parts.recs;
    let tables = parts.tables;
    let properties = property_maps(alloc, recs, parts.kept, tables)?;
    let events = event_maps(alloc, recs, parts.kept, tables)?;
    let impls = method_impls(alloc, parts.marker, parts.kept, tables, parts.tokens)?;
    Ok(MapRows {
        properties,
        events,
        impls,
    })
}
