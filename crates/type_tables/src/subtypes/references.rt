//! Types of references to objects: classes, interfaces and arrays (I.8.2.1).

ghost use Rattle.std.specs.Prelude.{◌≡◌, IfOk};
ghost use Rattle.std.specs.List.{list_any};
ghost use Rattle.std.specs.Option.{option_and_then};
ghost use Rattle.rules.specs.link_rules.Members.{base_at};
ghost use Rattle.rules.specs.link_rules.Cycles.{listed, home_of, is_core_row_at, is_value_type};
ghost use Rattle.rules.specs.type_rules.Subtypes.{is_class_at, is_reference};
ghost use Rattle.type_tables.specs.Tables.{IsTables};

use crate::member_search::bases::{base_at, definition};
use crate::tables::Tables;
use il_base::core_table::{ENUM, VALUE_TYPE};
use il_base::element::{OBJECT, STRING};
use il_base::world_model::{AsmRec, TypeExpr, wide_token};
use il_base::{NoMemory, table};
use rules::link_rules::RowAt;

/// Whether a type definition is the one that a TypeDef token of the core library, the last assembly, names.
fn is_core_row_at(all: &[AsmRec], token: u32, at: RowAt) -> bool
    ensures { result ≡ is_core_row_at all.now token at }
{
    at.asm as usize + 1 == all.len() && wide_token(table::TYPE_DEF, at.row) == u64::from(token)
}

/// The definition of the base of a type definition.
fn base_home(tables: &Tables<'_>, at: RowAt) -> Result<Option<RowAt>, NoMemory>
    requires { IsTables tables.now }
    ensures { IfOk result (λ base. base ≡ option_and_then (home_of tables.now.world.now.recs) (base_at tables.now.world.now.recs at)) }
{
    let linked = tables.linked();
    match base_at(&linked, at) {
        Some(base) => definition(linked.all, base),
        None => Ok(None),
    }
}

/// Whether a base is the type definition that a TypeDef token of the core library names.
fn is_core_base(all: &[AsmRec], token: u32, base: Option<RowAt>) -> bool
    ensures { result ≡ list_any (is_core_row_at all.now token) (listed base) }
{
    match base {
        Some(at) => is_core_row_at(all, token, at),
        None => false,
    }
}

/// Whether a type definition is a value type: its base is System.ValueType, and it isn't System.Enum, or its base is
/// System.Enum (II.13).
#[tactic(auto, unfolding(rules::specs::link_rules::Cycles::is_value_type))]
pub fn is_value_type(tables: &Tables<'_>, at: RowAt) -> Result<bool, NoMemory>
    requires { IsTables tables.now }
    ensures { IfOk result (λ is. is ≡ is_value_type tables.now.world.now.recs at) }
{
    let all = tables.world.recs.as_slice();
    let base = base_home(tables, at)?;
    let of_value_type = is_core_base(all, VALUE_TYPE, base);
    let is_enum = is_core_row_at(all, ENUM, at);
    let of_enum = is_core_base(all, ENUM, base);
    Ok((of_value_type && !is_enum) || of_enum)
}

/// Whether the definition of a type is there, and is no value type.
fn is_class(tables: &Tables<'_>, ty: &TypeExpr) -> Result<bool, NoMemory>
    requires { IsTables tables.now }
    ensures { IfOk result (λ is. is ≡ is_class_at tables.now.world.now.recs (home_of tables.now.world.now.recs ty.now)) }
{
    match definition(tables.world.recs.as_slice(), ty) {
        Ok(Some(at)) => {
            let is_value = is_value_type(tables, at)?;
            Ok(!is_value)
        }
        Ok(None) => Ok(false),
        Err(error) => Err(error),
    }
}

/// Whether a type is a class, an interface or an array. Of the primitives `string` and `object` are classes (II.23.1.16).
#[tactic(auto, unfolding(rules::specs::type_rules::Subtypes::is_reference))]
pub fn is_reference(tables: &Tables<'_>, ty: &TypeExpr) -> Result<bool, NoMemory>
    requires { IsTables tables.now }
    ensures { IfOk result (λ is. is ≡ is_reference tables.now.world.now.recs ty.now) }
{
    match ty {
        TypeExpr::Prim(code) => Ok(*code == STRING || *code == OBJECT),
        TypeExpr::Def(_) => is_class(tables, ty),
        TypeExpr::Inst(_, _) => is_class(tables, ty),
        TypeExpr::Array(_) => Ok(true),
        TypeExpr::ByRef(_) => Ok(false),
        TypeExpr::Var(_) => Ok(false),
        TypeExpr::MVar(_) => Ok(false),
        TypeExpr::Mod { .. } => Ok(false),
    }
}
