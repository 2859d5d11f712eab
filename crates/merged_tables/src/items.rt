//! The rows of kept items but methods.

ghost use Rattle.std.specs.Prelude.{IfOk};
ghost use Rattle.merged_tables.specs.Parts.{AreOutputParts, output_in};
ghost use Rattle.merged_tables.specs.Rows.{AreItemRows};

use crate::merged_members::events::events;
use crate::merged_members::fields::fields;
use crate::merged_members::laws::members_tell;
use crate::merged_members::params::params;
use crate::merged_members::properties::properties;
use crate::merged_types::laws::types_tell;
use crate::merged_types::type_defs;
use crate::parts::OutputParts;
use il_base::world_model::{EventRow, FieldRow, ParamRow, PropertyRow, TypeDefRow};
use il_base::{NoMemory, Seq};
use std::alloc::Global;

/// The rows of kept types, fields, properties and events, and of the parameters of kept methods.
#[derive(Drop)]
pub struct ItemRows {
    pub types: Seq<TypeDefRow>,
    pub fields: Seq<FieldRow>,
    pub params: Seq<ParamRow>,
    pub properties: Seq<PropertyRow>,
    pub events: Seq<EventRow>,
}

/// The rows of the output.
pub(crate) fn item_rows(alloc: Global, parts: &OutputParts<'_>) -> Result<ItemRows, NoMemory>
    requires { AreOutputParts parts.now }
    ensures { IfOk result (AreItemRows parts.now.plan.now.internal (output_in parts.now)) }
{
    types_tell();
    members_tell();
    let recs = parts.recs;
    let tokens = parts.tokens;
    let tables = parts.tables;
    let types = type_defs(alloc, parts.index, parts.plan, &tables.items, tokens)?;
    let kept_fields = tables.items.fields.rows();
    let fields = fields(alloc, recs, tokens, kept_fields)?;
    let kept_params = tables.items.params.rows();
    let params = params(alloc, recs, kept_params)?;
    let kept_properties = tables.items.properties.rows();
    let properties = properties(alloc, recs, tokens, kept_properties)?;
    let kept_events = tables.items.events.rows();
    let events = events(alloc, recs, tokens, kept_events)?;
    Ok(ItemRows {
        types,
        fields,
        params,
        properties,
        events,
    })
}
