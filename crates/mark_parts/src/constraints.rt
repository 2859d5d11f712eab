//! The constraints of generic parameters (II.22.20, II.22.21).

ghost use Rattle.std.specs.Prelude.{◌≡◌, ◌++◌, [], suc, slice_get, OnOk};
ghost use Rattle.std.specs.List.{flat_map};
ghost use Rattle.std.specs.Option.{option_map_or};
ghost use Rattle.rules.specs.mark_rules.Types.{constraint_of, constraints_of};
ghost use Rattle.il_base.specs.declared.table.TheConstants.{GENERIC_PARAM};
ghost use Rattle.il_base.specs.world_model.Tokens.{token_of};
ghost use Rattle.rules.specs.type_rules.Rows.{each_row};
ghost use Rattle.mark_parts.specs.mark_tables.Assemblies.{recs_of, place_of, rec_of, IsAssembly};
ghost use Rattle.mark_parts.specs.Constraints.{constraint_part, param_part};

use crate::mark_facts::parts::Parts;
use crate::mark_tables::assembly::Assembly;
use crate::tokens::add_type_token;
use il_base::world_model::token_of;
use il_base::{NoMemory, table};
use std::alloc::Global;

/// Adds the parts that a row of GenericParamConstraint, from 0, names.
fn add_constraint(
    alloc: Global,
    asm: &Assembly<'_>,
    k: u32,
    parts: &mut Parts,
) -> Result<(), NoMemory>
    requires { IsAssembly asm.now }
    ensures { OnOk result (parts.new ≡ parts.old ++ option_map_or (constraint_part (recs_of asm.now) (place_of asm.now) (rec_of asm.now) k) (slice_get (rec_of asm.now).generic_param_constraint k) []) }
{
    let Some(row) = asm.scope.rec.generic_param_constraint.get(k as usize) else {
        return Ok(());
    };
    let token = token_of(table::GENERIC_PARAM_CONSTRAINT, k as usize)?;
    add_type_token(alloc, asm, token, 0, row.constraint, parts)
}

/// Adds the parts that rows of GenericParamConstraint, from 0, name.
fn add_constraint_rows(
    alloc: Global,
    asm: &Assembly<'_>,
    rows: &[u32],
    parts: &mut Parts,
) -> Result<(), NoMemory>
    requires { IsAssembly asm.now }
    ensures { OnOk result (parts.new ≡ parts.old ++ flat_map (λ k. option_map_or (constraint_part (recs_of asm.now) (place_of asm.now) (rec_of asm.now) k) (slice_get (rec_of asm.now).generic_param_constraint k) []) rows.now) }
{
    for k in rows {
        add_constraint(alloc, asm, *k, parts)?;
    }
    Ok(())
}

/// Adds the constraints that belong to a row of GenericParam, from 0.
fn add_constraints_at(
    alloc: Global,
    asm: &Assembly<'_>,
    k: u32,
    parts: &mut Parts,
) -> Result<(), NoMemory>
    requires { IsAssembly asm.now }
    ensures { OnOk result (parts.new ≡ parts.old ++ each_row (constraint_of (recs_of asm.now) (place_of asm.now) (rec_of asm.now) (token_of GENERIC_PARAM (suc k))) (rec_of asm.now).generic_param_constraint) }
{
    let token = token_of(table::GENERIC_PARAM, k as usize)?;
    let rows = asm.owners.constraints.rows_with(token);
    add_constraint_rows(alloc, asm, rows, parts)?;
    Ok(())
}

/// Adds the constraints of a row of GenericParam, from 0.
fn add_param(alloc: Global, asm: &Assembly<'_>, k: u32, parts: &mut Parts) -> Result<(), NoMemory>
    requires { IsAssembly asm.now }
    ensures { OnOk result (parts.new ≡ parts.old ++ option_map_or (param_part (recs_of asm.now) (place_of asm.now) (rec_of asm.now) k) (slice_get (rec_of asm.now).generic_param k) []) }
{
    match asm.scope.rec.generic_param.get(k as usize) {
        Some(_row) => add_constraints_at(alloc, asm, k, parts),
        None => Ok(()),
    }
}

/// Adds the constraints of rows of GenericParam, from 0.
fn add_param_rows(
    alloc: Global,
    asm: &Assembly<'_>,
    rows: &[u32],
    parts: &mut Parts,
) -> Result<(), NoMemory>
    requires { IsAssembly asm.now }
    ensures { OnOk result (parts.new ≡ parts.old ++ flat_map (λ k. option_map_or (param_part (recs_of asm.now) (place_of asm.now) (rec_of asm.now) k) (slice_get (rec_of asm.now).generic_param k) []) rows.now) }
{
    for k in rows {
        add_param(alloc, asm, *k, parts)?;
    }
    Ok(())
}

/// Adds the constraints of the generic parameters of a type or a method, by its token.
pub fn add_constraints(
    alloc: Global,
    asm: &Assembly<'_>,
    owner: u32,
    parts: &mut Parts,
) -> Result<(), NoMemory>
    requires { IsAssembly asm.now }
    ensures { OnOk result (parts.new ≡ parts.old ++ constraints_of (recs_of asm.now) (place_of asm.now) (rec_of asm.now) owner) }
{
    let rows = asm.owners.params.rows_with(owner);
    add_param_rows(alloc, asm, rows, parts)?;
    Ok(())
}
