ghost use Rattle.std.specs.Prelude.{◌≡◌, IfOk};
ghost use Rattle.std.specs.Option.{option_map, option_and_then};
ghost use Rattle.il_base.specs.world_model.Worlds.{core_types, type_id};
ghost use Rattle.rules.specs.declared.link_rules.row_at.RowAt.{RowAt};
ghost use Rattle.rules.specs.link_rules.Types.{is_added, listed_at, added_at};
ghost use Rattle.rules.specs.link_rules.Signatures.{prim_at, definition_expr, known_expr};

use il_base::core_table::TYPE_COUNT;
use il_base::world_model::{AsmRec, BadKind, Known, TypeDefRow, TypeExpr, prim_of, type_id};
use il_base::{NoMemory, TypeId};
use rules::link_rules::RowAt;

/// The rows of the core library, which is the last assembly.
#[tactic(auto, unfolding(il_base::specs::world_model::Worlds::core_types))]
fn core_types(all: &[AsmRec]) -> &[TypeDefRow]
    ensures { result.now ≡ core_types all.now }
{
    match all {
        [] => &[],
        [.., core] => core.type_def.as_slice(),
    }
}

/// The element type of a primitive of the core library.
fn prim_at(all: &[AsmRec], at: RowAt) -> Option<u8>
    ensures { result ≡ prim_at all.now at }
{
    if at.asm as usize + 1 == all.len() {
        match core_types(all).get(at.row as usize) {
            None => None,
            Some(row) => prim_of(row),
        }
    } else {
        None
    }
}

/// The id of a type by its row.
fn id_of(all: &[AsmRec], at: RowAt) -> Result<TypeId, NoMemory>
    ensures { IfOk result (λ t. t ≡ type_id all.now at.asm at.row) }
{
    match type_id(all, at.asm as usize, at.row as usize) {
        None => Err(NoMemory),
        Some(id) => Ok(id),
    }
}

/// The type that a definition is: a primitive of the core library is its element type.
#[tactic(auto, unfolding(rules::specs::link_rules::Signatures::definition_expr))]
pub(crate) fn definition_expr(all: &[AsmRec], at: RowAt) -> Result<TypeExpr, NoMemory>
    ensures { IfOk result (λ e. e ≡ definition_expr all.now at) }
{
    match prim_at(all, at) {
        Some(code) => Ok(TypeExpr::Prim(code)),
        None => {
            let id = id_of(all, at)?;
            Ok(TypeExpr::Def(id))
        }
    }
}

/// The type that a reference names, by the definition that it leads to.
pub(crate) fn known_expr(all: &[AsmRec], at: Option<RowAt>) -> Result<Known<TypeExpr>, NoMemory>
    ensures { IfOk result (λ e. e ≡ known_expr all.now at) }
{
    match at {
        None => Ok(Known::Bad(BadKind::Unresolved)),
        Some(at) => {
            let ty = definition_expr(all, at)?;
            Ok(Known::Good(ty))
        }
    }
}

/// Whether a row of the core library comes after those of its table: modifiers alone find it (II.7.1.1).
fn is_added(all: &[AsmRec], at: RowAt) -> bool
    ensures { result ≡ is_added all.now at }
{
    at.asm as usize + 1 == all.len() && at.row >= TYPE_COUNT
}

/// The row that a reference leads to, except for a modifier: no added type of the core library.
pub(crate) fn listed(all: &[AsmRec], at: Option<RowAt>) -> Option<RowAt>
    ensures { result ≡ option_and_then (listed_at all.now) at }
{
    match at {
        None => None,
        Some(at) => { if is_added(all, at) { None } else { Some(at) } }
    }
}

/// The type that a reference leads to for a modifier alone.
pub(crate) fn added(all: &[AsmRec], at: Option<RowAt>) -> Result<Option<TypeId>, NoMemory>
    ensures { IfOk result (λ t. t ≡ option_map (λ (row : RowAt). type_id all.now row.asm row.row) (option_and_then (added_at all.now) at)) }
{
    match at {
        None => Ok(None),
        Some(at) => {
            if is_added(all, at) {
                let id = id_of(all, at)?;
                Ok(Some(id))
            } else {
                Ok(None)
            }
        }
    }
}
