//! The value types of a world (II.13).

ghost use Rattle.std.specs.Prelude.{◌≡◌, ◌≤◌, ◌++◌, IfOk, OnOk};
ghost use Rattle.il_base.specs.declared.world_model.tokens.TheConstants.{FIRST_TYPE_DEF};
ghost use Rattle.rules.specs.link_rules.Faults.{numbered};
ghost use Rattle.link_faults.specs.Values.{core_type, is_core_type, is_enum_itself, is_value, all_values};

use crate::bases::base_target;
use crate::scope::Scope;
use il_base::core_table::{ENUM, VALUE_TYPE};
use il_base::world_model::{AsmRec, FIRST_TYPE_DEF, TypeDefRow, type_id};
use il_base::{AsmId, NoMemory, TypeId};
use std::alloc::Global;

/// The id of a type of the core library by its token, whether it is there or not.
fn core_type(all: &[AsmRec], token: u32) -> Result<TypeId, NoMemory>
    requires { FIRST_TYPE_DEF ≤ token }
    ensures { IfOk result (λ id. id ≡ core_type all.now token) }
{
    match type_id(
        all,
        all.len().saturating_sub(1),
        (token - FIRST_TYPE_DEF) as usize,
    ) {
        None => Err(NoMemory),
        Some(id) => Ok(id),
    }
}

/// Whether an id is there, and is that of a type of the core library.
fn is_core_type(all: &[AsmRec], token: u32, id: Option<u32>) -> Result<bool, NoMemory>
    requires { FIRST_TYPE_DEF ≤ token }
    ensures { IfOk result (λ yes. yes ≡ is_core_type all.now token id) }
{
    match id {
        None => Ok(false),
        Some(id) => {
            let core = core_type(all, token)?;
            Ok(id == core.0)
        }
    }
}

/// Whether the type in this row of an assembly is `System.Enum`.
fn is_enum_itself(all: &[AsmRec], asm: AsmId, at: usize) -> bool
    ensures { result ≡ is_enum_itself all.now asm.0 at }
{
    asm.0 as usize + 1 == all.len() && at == (ENUM - FIRST_TYPE_DEF) as usize
}

/// Whether the type in this row of an assembly is a value type: its base is `System.Enum`, or `System.ValueType` and it
/// isn't `System.Enum` itself.
pub(crate) fn is_value(
    scope: &Scope<'_>,
    asm: AsmId,
    at: usize,
    row: &TypeDefRow,
) -> Result<bool, NoMemory>
    ensures { IfOk result (λ yes. yes ≡ is_value scope.now.all.now scope.now.links.now asm.0 at row.now) }
{
    let base = base_target(scope, asm, row)?;
    let value = is_core_type(scope.all, VALUE_TYPE, base)?;
    let enumeration = is_core_type(scope.all, ENUM, base)?;
    Ok((value && !is_enum_itself(scope.all, asm, at)) || enumeration)
}

/// Adds a flag for each type of an assembly: whether it is a value type.
fn add_values(
    scope: &Scope<'_>,
    asm: AsmId,
    rec: &AsmRec,
    values: &mut Vec<bool>,
) -> Result<(), NoMemory>
    ensures { OnOk result (values.new.items ≡ values.old.items ++ numbered (is_value scope.now.all.now scope.now.links.now asm.0) 0 rec.now.type_def) }
{
    for (at, row) in rec.type_def.as_slice().iter().enumerate() {
        let value = is_value(scope, asm, at, row)?;
        values.push(value)?;
    }
    Ok(())
}

/// A flag for each type, in the order of ids: whether it is a value type.
pub(crate) fn all_values(alloc: Global, scope: &Scope<'_>) -> Result<Vec<bool>, NoMemory>
    ensures { IfOk result (λ values. values.items ≡ all_values scope.now.all.now scope.now.links.now) }
{
    let mut values = Vec::new(alloc);
    for (at, rec) in scope.all.iter().enumerate() {
        let Ok(asm) = u32::try_from(at) else {
            return Err(NoMemory);
        };
        add_values(scope, AsmId(asm), rec, &mut values)?;
    }
    Ok(values)
}
