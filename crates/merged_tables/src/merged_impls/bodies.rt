//! Whether the body of a MethodImpl row stays.

ghost use Rattle.std.specs.Prelude.{◌≡◌, ◌||◌, IfOk};
ghost use Rattle.std.specs.List.{list_any};
ghost use Rattle.std.specs.Option.{option_copied};
ghost use Rattle.il_base.specs.declared.ids.Item.TheVariants as item;
ghost use Rattle.rules.specs.link_rules.Cycles.{listed};
ghost use Rattle.rules.specs.mark_rules.Places.{is_core};
ghost use Rattle.rules.specs.mark_rules.Naming.{method_named};
ghost use Rattle.mark_parts.specs.mark_tables.Assemblies.{IsAssembly, recs_of, place_of, rec_of};
ghost use Rattle.rules.specs.merge_rules.Keys.{good};
ghost use Rattle.merge_plan.specs.Kept.{kept_by};
ghost use Rattle.merged_tables.specs.merged_impls.Impls.{is_kept_use, has_kept_use};

use il_base::world_model::{AsmRec, Known, MethodUse};
use il_base::{Item, MethodId, NoMemory};
use mark_parts::mark_facts::rows::is_core;
use mark_parts::mark_tables::assembly::Assembly;
use mark_parts::tokens::method_link;
use merge_plan::KeptItems;

/// Whether a method is kept or the core library's.
fn stays(recs: &[AsmRec], kept: &KeptItems, id: MethodId) -> Result<bool, NoMemory>
    ensures { IfOk result (λ b. b ≡ (kept_by kept.now (item.Method id) || is_core recs.now (item.Method id))) }
{
    if kept.has(Item::Method(id)) {
        return Ok(true);
    }
    is_core(recs, Item::Method(id))
}

/// The method that a MethodDef or MemberRef token names.
fn method_named<'a>(asm: &Assembly<'a>, token: u32) -> Option<&'a MethodUse>
    requires { IsAssembly asm.now }
    ensures { option_copied result ≡ good (method_named (recs_of asm.now) (place_of asm.now) (rec_of asm.now) token) }
{
    match method_link(asm, token) {
        None => None,
        Some(Known::Good(used)) => Some(used),
        Some(Known::Bad(_)) => None,
    }
}

/// Whether the method that a token names is kept or the core library's; one that names nothing is neither.
pub(crate) fn has_kept_body(
    recs: &[AsmRec],
    asm: &Assembly<'_>,
    kept: &KeptItems,
    token: u32,
) -> Result<bool, NoMemory>
    requires { IsAssembly asm.now }
    ensures { IfOk result (λ b. b ≡ has_kept_use recs.now (kept_by kept.now) (good (method_named (recs_of asm.now) (place_of asm.now) (rec_of asm.now) token))) }
{
    match method_named(asm, token) {
        None => Ok(false),
        Some(used) => {
            let is = stays(recs, kept, used.method)?;
            Ok(is)
        }
    }
}
