//! The tokens whose attribute rows are an item's.

ghost use Rattle.std.specs.Prelude.{◌≡◌, ◌++◌, ◌-◌, ◌∷◌, [], suc, map, slice_get, IfOk, OnOk};
ghost use Rattle.std.specs.List.{flat_map, range_with_len};
ghost use Rattle.std.specs.Option.{option_map_or};
ghost use Rattle.il_base.specs.declared.table.TheConstants.{PARAM, ASSEMBLY, MODULE, TYPE_DEF, METHOD_DEF};
ghost use Rattle.il_base.specs.world_model.Tokens.{token_of};
ghost use Rattle.rules.specs.type_rules.Rows.{run_places};
ghost use Rattle.rules.specs.mark_rules.Attributes.{generic_tokens, parameter_tokens, tokens_in};
ghost use Rattle.mark_parts.specs.mark_tables.Assemblies.{rec_of, IsAssembly};
ghost use Rattle.attribute_values.specs.attribute_rows.Parents.{constraint_here, param_here, param_at};

use il_base::world_model::{AsmRec, MethodDefRow, token_of};
use il_base::{Item, NoMemory, table};
use mark_parts::mark_tables::assembly::Assembly;
use std::alloc::Global;

/// Puts the token of a row of GenericParamConstraint, from 0, at the end.
fn add_constraint(rec: &AsmRec, k: u32, tokens: &mut Vec<u32>) -> Result<(), NoMemory>
    ensures { OnOk result (tokens.new.items ≡ tokens.old.items ++ option_map_or (constraint_here k) (slice_get rec.now.generic_param_constraint k) []) }
{
    let Some(_row) = rec.generic_param_constraint.get(k as usize) else {
        return Ok(());
    };
    let token = token_of(table::GENERIC_PARAM_CONSTRAINT, k as usize)?;
    tokens.push(token)?;
    Ok(())
}

/// Puts the tokens of rows of GenericParamConstraint, from 0, at the end.
fn add_constraint_rows(rec: &AsmRec, rows: &[u32], tokens: &mut Vec<u32>) -> Result<(), NoMemory>
    ensures { OnOk result (tokens.new.items ≡ tokens.old.items ++ flat_map (λ k. option_map_or (constraint_here k) (slice_get rec.now.generic_param_constraint k) []) rows.now) }
{
    for k in rows {
        add_constraint(rec, *k, tokens)?;
    }
    Ok(())
}

/// Puts the token of a row of GenericParam, from 0, at the end, and those of its constraints.
fn add_param_row(asm: &Assembly<'_>, k: u32, tokens: &mut Vec<u32>) -> Result<(), NoMemory>
    requires { IsAssembly asm.now }
    ensures { OnOk result (tokens.new.items ≡ tokens.old.items ++ param_at (rec_of asm.now) k) }
{
    let token = token_of(table::GENERIC_PARAM, k as usize)?;
    tokens.push(token)?;
    let rows = asm.owners.constraints.rows_with(token);
    add_constraint_rows(asm.scope.rec, rows, tokens)?;
    Ok(())
}

/// Puts the token of a row of GenericParam, from 0, at the end, and those of its constraints; none where there is no such row.
fn add_param(asm: &Assembly<'_>, k: u32, tokens: &mut Vec<u32>) -> Result<(), NoMemory>
    requires { IsAssembly asm.now }
    ensures { OnOk result (tokens.new.items ≡ tokens.old.items ++ option_map_or (param_here (rec_of asm.now) k) (slice_get (rec_of asm.now).generic_param k) []) }
{
    match asm.scope.rec.generic_param.get(k as usize) {
        Some(_row) => add_param_row(asm, k, tokens),
        None => Ok(()),
    }
}

/// Puts the tokens of rows of GenericParam, from 0, and those of their constraints at the end.
fn add_param_rows(asm: &Assembly<'_>, rows: &[u32], tokens: &mut Vec<u32>) -> Result<(), NoMemory>
    requires { IsAssembly asm.now }
    ensures { OnOk result (tokens.new.items ≡ tokens.old.items ++ flat_map (λ k. option_map_or (param_here (rec_of asm.now) k) (slice_get (rec_of asm.now).generic_param k) []) rows.now) }
{
    for k in rows {
        add_param(asm, *k, tokens)?;
    }
    Ok(())
}

/// Puts the tokens of the generic parameters of a type or a method, by its token, at the end, and those of their constraints.
fn add_generic(asm: &Assembly<'_>, owner: u32, tokens: &mut Vec<u32>) -> Result<(), NoMemory>
    requires { IsAssembly asm.now }
    ensures { OnOk result (tokens.new.items ≡ tokens.old.items ++ generic_tokens (rec_of asm.now) owner) }
{
    let rows = asm.owners.params.rows_with(owner);
    add_param_rows(asm, rows, tokens)?;
    Ok(())
}

/// Puts the tokens of the rows of Param from `start` to before `end`, from 0, at the end.
fn add_params_between(start: u32, end: u32, tokens: &mut Vec<u32>) -> Result<(), NoMemory>
    ensures { OnOk result (tokens.new.items ≡ tokens.old.items ++ map (λ p. token_of PARAM (suc p)) (range_with_len start (end - start))) }
{
    for p in start..end {
        let token = token_of(table::PARAM, p as usize)?;
        tokens.push(token)?;
    }
    Ok(())
}

/// Puts the tokens of a method's parameters at the end.
#[tactic(auto, using(crate::proofs::lemmas::attribute_rows::Running::as_long))]
fn add_params_of(rec: &AsmRec, m: &MethodDefRow, tokens: &mut Vec<u32>) -> Result<(), NoMemory>
    ensures { OnOk result (tokens.new.items ≡ tokens.old.items ++ map (λ p. token_of PARAM (suc p)) (run_places m.now.param_list_first m.now.param_list_end rec.now.param)) }
{
    let start = m.param_list_first.saturating_sub(1);
    let end = start + m.param_list_end.saturating_sub(m.param_list_first);
    let count = u32::try_from(rec.param.len()).unwrap_or(u32::MAX);
    add_params_between(start, end.min(count), tokens)?;
    Ok(())
}

/// Puts the tokens of the parameters of the method in a row, from 0, at the end.
fn add_params(rec: &AsmRec, row: u32, tokens: &mut Vec<u32>) -> Result<(), NoMemory>
    ensures { OnOk result (tokens.new.items ≡ tokens.old.items ++ parameter_tokens rec.now row) }
{
    match rec.method_def.get(row as usize) {
        Some(m) => add_params_of(rec, m, tokens),
        None => Ok(()),
    }
}

/// The token of a row, from 0, alone.
fn one_token(alloc: Global, table: u8, row: u32) -> Result<Vec<u32>, NoMemory>
    ensures { IfOk result (λ tokens. tokens.items ≡ token_of table (suc row) ∷ []) }
{
    let mut tokens = Vec::new(alloc);
    let token = token_of(table, row as usize)?;
    tokens.push(token)?;
    Ok(tokens)
}

/// The tokens of an assembly's row and of its module's.
fn assembly_tokens(alloc: Global) -> Result<Vec<u32>, NoMemory>
    ensures { IfOk result (λ tokens. tokens.items ≡ token_of ASSEMBLY 1 ∷ token_of MODULE 1 ∷ []) }
{
    let mut tokens = one_token(alloc, table::ASSEMBLY, 0)?;
    let module_token = token_of(table::MODULE, 0)?;
    tokens.push(module_token)?;
    Ok(tokens)
}

/// The tokens of a type's row, and of its generic parameters with their constraints.
fn type_tokens(alloc: Global, asm: &Assembly<'_>, row: u32) -> Result<Vec<u32>, NoMemory>
    requires { IsAssembly asm.now }
    ensures { IfOk result (λ tokens. tokens.items ≡ token_of TYPE_DEF (suc row) ∷ generic_tokens (rec_of asm.now) (token_of TYPE_DEF (suc row))) }
{
    let owner = token_of(table::TYPE_DEF, row as usize)?;
    let mut tokens = one_token(alloc, table::TYPE_DEF, row)?;
    add_generic(asm, owner, &mut tokens)?;
    Ok(tokens)
}

/// The tokens of a method's row, of its parameters, and of its generic parameters with their constraints.
fn method_tokens(alloc: Global, asm: &Assembly<'_>, row: u32) -> Result<Vec<u32>, NoMemory>
    requires { IsAssembly asm.now }
    ensures { IfOk result (λ tokens. tokens.items ≡ token_of METHOD_DEF (suc row) ∷ parameter_tokens (rec_of asm.now) row ++ generic_tokens (rec_of asm.now) (token_of METHOD_DEF (suc row))) }
{
    let owner = token_of(table::METHOD_DEF, row as usize)?;
    let mut tokens = one_token(alloc, table::METHOD_DEF, row)?;
    add_params(asm.scope.rec, row, &mut tokens)?;
    add_generic(asm, owner, &mut tokens)?;
    Ok(tokens)
}

/// The tokens whose attribute rows are an item's, which has this row, from 0: its own, of an assembly also its module's, of a
/// type and a method also those of generic parameters with their constraints, of a method also those of its parameters.
pub fn tokens_in(
    alloc: Global,
    asm: &Assembly<'_>,
    item: Item,
    row: u32,
) -> Result<Vec<u32>, NoMemory>
    requires { IsAssembly asm.now }
    ensures { IfOk result (λ tokens. tokens.items ≡ tokens_in item row (rec_of asm.now)) }
{
    match item {
        Item::Asm(_) => assembly_tokens(alloc),
        Item::Typ(_) => type_tokens(alloc, asm, row),
        Item::Method(_) => method_tokens(alloc, asm, row),
        Item::Field(_) => one_token(alloc, table::FIELD, row),
        Item::Prop(_) => one_token(alloc, table::PROPERTY, row),
        Item::Event(_) => one_token(alloc, table::EVENT, row),
        Item::Impl(_) => one_token(alloc, table::INTERFACE_IMPL, row),
    }
}
