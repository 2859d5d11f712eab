//! Which classes have cells that are made in few steps.

use crate::world_layouts::closing::{numbered_cell, plain_of};
use crate::world_layouts::layouts::Layouts;
use crate::world_layouts::settled::settled;
use crate::world_types::ClosedTypes;
use il_base::NoMemory;
use il_base::world_model::TypeExpr;
use std::alloc::Global;
use type_tables::member_search::bases::{args_of, owner_of};

/// Whether each of some fields, by their ids, is no struct, where their type has these arguments.
fn are_flat(
    alloc: Global,
    layouts: &Layouts<'_>,
    args: &[TypeExpr],
    fields: &[u32],
) -> Result<bool, NoMemory> {
    for field in fields {
        let flat = match numbered_cell(alloc, layouts.definitions(), args, *field) {
            Err(error) => return Err(error),
            Ok(None) => true,
            Ok(Some(ty)) => settled(alloc, layouts, plain_of(&ty))?.is_some(),
        };
        if !flat {
            return Ok(false);
        }
    }
    Ok(true)
}

/// Whether no field of a type itself is a struct. `room` is how many fields may still be looked at, and becomes less.
fn is_flat_type(
    alloc: Global,
    layouts: &Layouts<'_>,
    types: &ClosedTypes<'_>,
    ty: &TypeExpr,
    room: &mut usize,
) -> Result<bool, NoMemory> {
    let owner = owner_of(types.recs(), ty)?;
    let Some(id) = owner else {
        return Ok(true);
    };
    match layouts.kind(id) {
        None => Ok(true),
        Some(kind) => {
            *room = room.saturating_sub(kind.fields.len());
            if *room == 0 {
                return Ok(false);
            }
            are_flat(alloc, layouts, args_of(ty), kind.fields.as_slice())
        }
    }
}

impl Layouts<'_> {
    /// Whether no field of a type and its bases is a struct, so that its cells are soon made. `room` is how many bases and
    /// fields may still be looked at, and becomes less; false where it is 0.
    pub fn is_flat(
        &self,
        alloc: Global,
        types: &ClosedTypes<'_>,
        ty: &TypeExpr,
        room: &mut usize,
    ) -> Result<bool, NoMemory> {
        if *room == 0 {
            return Ok(false);
        }
        let bases = types.with_bases(alloc, ty)?;
        *room = room.saturating_sub(bases.len());
        for base in bases.as_slice() {
            let flat = is_flat_type(alloc, self, types, base, room)?;
            if !flat {
                return Ok(false);
            }
        }
        Ok(true)
    }
}
