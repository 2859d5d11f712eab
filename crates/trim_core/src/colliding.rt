//! The text of a collision.

ghost use Rattle.std.specs.Prelude.{◌≡◌, ◌++◌, suc, option_copied, IfOk, OnOk};
ghost use Rattle.il_base.specs.declared.table.TheConstants.{TYPE_DEF};
ghost use Rattle.il_base.specs.world_model.Tokens.{token_of};
ghost use Rattle.rules.specs.link_rules.Faults.{own_name};
ghost use Rattle.rules.specs.type_rules.Rows.{rec_at};
ghost use Rattle.rules.specs.type_rules.Texts.{full_name};
ghost use Rattle.rules.specs.mark_rules.KeepList.{hex_8};
ghost use Rattle.rules.specs.merge_rules.Names.{assembly_name, old_name};
ghost use Rattle.trim_core.specs.Colliding.{place_text, type_place, type_name, collision_in, collision_text, row_in};

use crate::digits::hex_8;
use il_base::world_model::{AsmRec, TypeDefRow, token_of};
use il_base::{NoMemory, Seq, Text, TypeId, table};
use inputs::{InputError, take_files};
use rules::link_rules::RowAt;
use std::alloc::Global;
use type_tables::member_search::homes::type_home;

/// The simple name of an assembly; empty where it has none.
fn own_name(rec: &AsmRec) -> &[u8]
    ensures { result.now ≡ own_name rec.now }
{
    match rec.assembly.as_slice() {
        [] => &[],
        [row, ..] => row.name.as_slice(),
    }
}

/// The assembly of a row.
fn rec_at<'a>(recs: &'a [AsmRec], at: RowAt) -> Option<&'a AsmRec>
    ensures { option_copied result ≡ rec_at recs.now at }
{
    recs.get(at.asm as usize)
}

/// A type of an assembly by its row, from 0.
fn row_in<'a>(rec: &'a AsmRec, row: u32) -> Option<&'a TypeDefRow>
    ensures { option_copied result ≡ row_in rec.now row }
{
    rec.type_def.get(row as usize)
}

/// Adds a type's namespace, if it has one, a full stop and its name.
fn put_full_name(t: &TypeDefRow, out: &mut Text) -> Result<(), NoMemory>
    ensures { OnOk result (out.new ≡ out.old ++ full_name t.now) }
{
    if !t.namespace.is_empty() {
        out.extend_from_slice(t.namespace.as_slice())?;
        out.push(b'.')?;
    }
    out.extend_from_slice(t.name.as_slice())?;
    Ok(())
}

/// Adds the name of the assembly of a row.
#[tactic(auto, using(crate::proofs::Lines::none_more))]
fn put_assembly(recs: &[AsmRec], at: RowAt, out: &mut Text) -> Result<(), NoMemory>
    ensures { OnOk result (out.new ≡ out.old ++ assembly_name recs.now at) }
{
    match rec_at(recs, at) {
        None => Ok(()),
        Some(rec) => out.extend_from_slice(own_name(rec)),
    }
}

/// Adds the assembly of a type and its token.
#[tactic(auto, using(crate::proofs::Lines::place_put))]
fn put_row(recs: &[AsmRec], at: RowAt, out: &mut Text) -> Result<(), NoMemory>
    ensures { OnOk result (out.new ≡ out.old ++ place_text recs.now at) }
{
    let token = token_of(table::TYPE_DEF, at.row as usize)?;
    put_assembly(recs, at, out)?;
    out.push(b':')?;
    out.extend_from_slice(&hex_8(token))
}

/// Adds the assembly of a type and its token, by its place in the world.
#[tactic(auto, using(crate::proofs::Lines::none_more))]
fn put_place(recs: &[AsmRec], t: TypeId, out: &mut Text) -> Result<(), NoMemory>
    ensures { OnOk result (out.new ≡ out.old ++ type_place recs.now t) }
{
    match type_home(recs, t)? {
        None => Ok(()),
        Some(at) => put_row(recs, at, out),
    }
}

/// Adds the name of the type in a row.
#[tactic(auto, using(crate::proofs::Lines::none_more))]
fn put_old_name(recs: &[AsmRec], at: RowAt, out: &mut Text) -> Result<(), NoMemory>
    ensures { OnOk result (out.new ≡ out.old ++ old_name recs.now at) }
{
    match rec_at(recs, at) {
        None => Ok(()),
        Some(rec) => match row_in(rec, at.row) {
            None => Ok(()),
            Some(t) => put_full_name(t, out),
        },
    }
}

/// Adds the name of a type, by its place in the world.
#[tactic(auto, using(crate::proofs::Lines::none_more))]
fn put_name(recs: &[AsmRec], t: TypeId, out: &mut Text) -> Result<(), NoMemory>
    ensures { OnOk result (out.new ≡ out.old ++ type_name recs.now t) }
{
    match type_home(recs, t)? {
        None => Ok(()),
        Some(at) => put_old_name(recs, at, out),
    }
}

/// The text of a collision of two types of a world.
#[tactic(auto, using(crate::proofs::Lines::collision_put))]
fn text_in(alloc: Global, recs: &[AsmRec], first: TypeId, second: TypeId) -> Result<Text, NoMemory>
    ensures { IfOk result (λ text. text ≡ collision_in recs.now first second) }
{
    let mut out = Seq::new(alloc);
    put_place(recs, first, &mut out)?;
    out.push(b' ')?;
    put_place(recs, second, &mut out)?;
    out.push(b' ')?;
    put_name(recs, second, &mut out)?;
    Ok(out)
}

/// The places of two types of the files that have one name, and that name: `ASM:TOKEN ASM:TOKEN TEXT`, in UTF-8. Empty where the files
/// make no world.
pub fn collision_text(
    alloc: Global,
    files: &Seq<Text>,
    first: TypeId,
    second: TypeId,
) -> Result<Text, NoMemory>
    ensures { IfOk result (λ text. text ≡ collision_text files.now first second) }
{
    match take_files(alloc, files) {
        Err(InputError::NoMemory) => Err(NoMemory),
        Err(InputError::Limit { .. }) => Ok(Seq::new(alloc)),
        Err(InputError::BadFile { .. }) => Ok(Seq::new(alloc)),
        Err(InputError::NoEntry { .. }) => Ok(Seq::new(alloc)),
        Ok(world) => text_in(alloc, world.recs.as_slice(), first, second),
    }
}
