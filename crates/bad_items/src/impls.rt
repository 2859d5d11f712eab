//! The declarations of rows of MethodImpl whose class and body are marked (II.22.27).

ghost use Rattle.std.specs.Prelude.{◌≡◌, ◌++◌, ◌&&◌, Some, slice_get, IfOk, OnOk};
ghost use Rattle.std.specs.Option.{option_copied};
ghost use Rattle.il_base.specs.declared.ids.Item.TheVariants as item;
ghost use Rattle.il_base.specs.world_model.Worlds.{known_or};
ghost use Rattle.rules.specs.link_rules.Members.{generic_method};
ghost use Rattle.rules.specs.type_rules.Rows.{each_row};
ghost use Rattle.rules.specs.mark_rules.Places.{type_item};
ghost use Rattle.rules.specs.mark_rules.BadItems.{declaration_flaw};
ghost use Rattle.mark_parts.specs.mark_tables.Assemblies.{recs_of, place_of, rec_of, IsAssembly, IsAssemblyAt};
ghost use Rattle.base_laws.specs.flaw_laws.Listed.{row_flaws, impl_flaws_by, impl_flaws_in, impl_flaws};
ghost use Rattle.bad_items.specs.Rows.{impl_row, kept_flaws, impl_flaws_at};
ghost use Rattle.bad_items.specs.Programs.{recs_in, has, IsProgram};

use crate::mark_flaws::flaws::Flaws;
use crate::program::Program;
use il_base::world_model::{
    AsmRec, BadKind, Known, MethodImplRow, MethodUse, index_in, table_of, token_of,
};
use il_base::{Item, NoMemory, table};
use mark_parts::mark_facts::rows::type_at;
use mark_parts::mark_tables::assembly::Assembly;
use mark_parts::tokens::method_link;
use rules::link_rules::RowAt;
use type_tables::member_search::counted::row_of;
use type_tables::methods::use_at;

/// The link of a MethodDef or MemberRef token; None for any other.
fn generic_link<'a>(asm: &Assembly<'a>, token: u32) -> Option<&'a Known<MethodUse>>
    requires { IsAssembly asm.now }
    ensures { known_or (option_copied result) ≡ generic_method (recs_of asm.now) (place_of asm.now) (rec_of asm.now) token }
{
    if table_of(token) == table::METHOD_SPEC {
        return None;
    }
    method_link(asm, token)
}

/// Puts the flaw of a row, which has this number from 0, at the end.
fn add_fault(at: RowAt, k: u32, why: BadKind, flaws: &mut Flaws) -> Result<(), NoMemory>
    ensures { OnOk result (flaws.new ≡ flaws.old ++ declaration_flaw at k (Known.Bad why)) }
{
    let token = token_of(table::METHOD_IMPL, k as usize)?;
    flaws.put(at, token, 0, why)
}

/// Puts the flaw of the declaration of a row, which has this number from 0, at the end, if it names no method.
#[tactic(auto, using(crate::proofs::lemmas::mark_flaws::Lists::none_more))]
fn add_declaration(
    asm: &Assembly<'_>,
    at: RowAt,
    k: u32,
    token: u32,
    flaws: &mut Flaws,
) -> Result<(), NoMemory>
    requires { IsAssembly asm.now }
    ensures { OnOk result (flaws.new ≡ flaws.old ++ declaration_flaw at k (generic_method (recs_of asm.now) (place_of asm.now) (rec_of asm.now) token)) }
{
    match generic_link(asm, token) {
        None => add_fault(at, k, BadKind::Unresolved, flaws),
        Some(Known::Bad(why)) => add_fault(at, k, *why, flaws),
        Some(Known::Good(_)) => Ok(()),
    }
}

/// The type in a row.
fn class_item(all: &[AsmRec], at: RowAt) -> Result<Item, NoMemory>
    ensures { IfOk result (λ i. i ≡ type_item all.now at) }
{
    let id = type_at(all, at)?;
    Ok(Item::Typ(id))
}

/// Whether the class in a row and a body are marked.
fn are_marked(program: &Program<'_>, class: RowAt, body: &MethodUse) -> Result<bool, NoMemory>
    ensures { IfOk result (λ are. are ≡ (has program.now (type_item (recs_in program.now) class) && has program.now (item.Method body.now.method))) }
{
    let marker = program.marker;
    let marked = program.marked;
    let class = class_item(marker.tables.world.recs.as_slice(), class)?;
    Ok(marked.has(class) && marked.has(Item::Method(body.method)))
}

/// Puts the flaw of a row with the class in another row and this body at the end, if both are marked.
#[tactic(auto, using(crate::proofs::lemmas::mark_flaws::Lists::none_more))]
fn add_kept(
    program: &Program<'_>,
    asm: &Assembly<'_>,
    at: RowAt,
    row: &MethodImplRow,
    class: u32,
    body: &MethodUse,
    flaws: &mut Flaws,
) -> Result<(), NoMemory>
    requires program { IsProgram program.now }
    requires asm { IsAssemblyAt program.now.marker.now at.asm asm.now }
    ensures { OnOk result (flaws.new ≡ flaws.old ++ row_flaws (has program.now) (impl_row (recs_in program.now) at.asm (rec_of asm.now) at.row row.now class body.now)) }
{
    let of_class = RowAt {
        asm: at.asm,
        row: class,
    };
    let kept = are_marked(program, of_class, body)?;
    if kept {
        return add_declaration(asm, at, at.row, row.declaration, flaws);
    }
    Ok(())
}

/// Puts the flaw of a row with this class and this body at the end, if both are there and marked.
#[tactic(auto, using(crate::proofs::lemmas::mark_flaws::Lists::none_more))]
fn add_with(
    program: &Program<'_>,
    asm: &Assembly<'_>,
    at: RowAt,
    row: &MethodImplRow,
    class: Option<u32>,
    body: Option<&MethodUse>,
    flaws: &mut Flaws,
) -> Result<(), NoMemory>
    requires program { IsProgram program.now }
    requires asm { IsAssemblyAt program.now.marker.now at.asm asm.now }
    ensures { OnOk result (flaws.new ≡ flaws.old ++ kept_flaws (recs_in program.now) (has program.now) at.asm (rec_of asm.now) at.row row.now class (option_copied body.entry)) }
{
    let Some(class) = class else {
        return Ok(());
    };
    let Some(body) = body else {
        return Ok(());
    };
    add_kept(program, asm, at, row, class, body, flaws)
}

/// Puts the flaw of the row in a place of its table at the end, if its class and its body are marked.
fn add_impl(
    program: &Program<'_>,
    asm: &Assembly<'_>,
    at: RowAt,
    row: &MethodImplRow,
    flaws: &mut Flaws,
) -> Result<(), NoMemory>
    requires program { IsProgram program.now }
    requires asm { IsAssemblyAt program.now.marker.now at.asm asm.now }
    requires here { slice_get (recs_in program.now) at.asm ≡ Some (rec_of asm.now) }
    ensures { OnOk result (flaws.new ≡ flaws.old ++ impl_flaws_by (recs_in program.now) (has program.now) at.asm (rec_of asm.now) at.row row.now) }
{
    let marker = program.marker;
    let class = index_in(table::TYPE_DEF, row.class);
    let body = use_at(&marker.tables, at.asm, row.body);
    add_with(program, asm, at, row, class, body, flaws)?;
    Ok(())
}

/// Puts the flaws of the rows of an assembly, which has this place, from 0, at the end.
fn add_impls_in(
    program: &Program<'_>,
    asm: &Assembly<'_>,
    place: u32,
    rows: &[MethodImplRow],
    flaws: &mut Flaws,
) -> Result<(), NoMemory>
    requires program { IsProgram program.now }
    requires asm { IsAssemblyAt program.now.marker.now place asm.now }
    requires here { slice_get (recs_in program.now) place ≡ Some (rec_of asm.now) }
    ensures { OnOk result (flaws.new ≡ flaws.old ++ each_row (impl_flaws_by (recs_in program.now) (has program.now) place (rec_of asm.now)) rows.now) }
{
    for (k, row) in rows.iter().enumerate() {
        let k = row_of(k)?;
        let at = RowAt { asm: place, row: k };
        add_impl(program, asm, at, row, flaws)?;
    }
    Ok(())
}

/// Puts the flaws of the rows of the assembly in a place, from 0, at the end.
#[tactic(auto, using(crate::proofs::lemmas::mark_flaws::Lists::none_more))]
fn add_impls_at(program: &Program<'_>, place: u32, flaws: &mut Flaws) -> Result<(), NoMemory>
    requires { IsProgram program.now }
    ensures { OnOk result (flaws.new ≡ flaws.old ++ impl_flaws_at (recs_in program.now) (has program.now) place (slice_get (recs_in program.now) place)) }
{
    let marker = program.marker;
    let Some(asm) = marker.assembly_at(place) else {
        return Ok(());
    };
    let rows = asm.scope.rec.method_impl.as_slice();
    add_impls_in(program, &asm, place, rows, flaws)
}

/// Puts the flaws of the rows of all assemblies at the end.
pub(crate) fn add_impls(program: &Program<'_>, flaws: &mut Flaws) -> Result<(), NoMemory>
    requires { IsProgram program.now }
    ensures { OnOk result (flaws.new ≡ flaws.old ++ impl_flaws (recs_in program.now) (has program.now)) }
{
    let marker = program.marker;
    let all = marker.tables.world.recs.as_slice();
    for (a, _rec) in all.iter().enumerate() {
        let place = row_of(a)?;
        add_impls_at(program, place, flaws)?;
    }
    Ok(())
}
