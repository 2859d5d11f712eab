//! The lines of an assembly's kept types, fields and methods.

ghost use Rattle.std.specs.Prelude.{◌≡◌, ◌++◌, suc, codes, OnOk, IfOk};
ghost use Rattle.std.specs.Option.{option_map};
ghost use Rattle.il_base.specs.declared.table.TheConstants.{TYPE_DEF, FIELD, METHOD_DEF};
ghost use Rattle.il_base.specs.world_model.Tokens.{token_of};
ghost use Rattle.rules.specs.declared.link_rules.row_at.RowAt.{RowAt};
ghost use Rattle.rules.specs.link_rules.Types.{at_row};
ghost use Rattle.rules.specs.type_rules.Slots.{type_of_method};
ghost use Rattle.rules.specs.type_rules.Rows.{each_row, owner_of_field};
ghost use Rattle.rules.specs.type_rules.Texts.{name_at};
ghost use Rattle.rules.specs.mark_rules.KeepList.{line, member_text, row_in};
ghost use Rattle.keep_lists.specs.Lists.{recs_in, place_in, rec_in, kept_in, type_line, field_line, method_line, IsListed};

use crate::line::put_line;
use crate::listed::{Listed, keeps};
use crate::texts::{member_text, type_text};
use il_base::world_model::{FieldRow, MethodDefRow, TypeDefRow, token_of};
use il_base::{NoMemory, Text, table};
use mark_parts::mark_facts::kinds::Kind;
use rules::link_rules::RowAt;
use std::alloc::Global;
use type_tables::member_search::counted::row_of;
use type_tables::methods::type_of_method;

/// Puts the line of a member at the end: of the row, from 0, of a table, with the kind's name, its type's row and its name.
pub(crate) fn put_member(
    alloc: Global,
    s: &Listed<'_>,
    table: u8,
    row: u32,
    kind: &[u8],
    owner: Option<u32>,
    name: &[u8],
    out: &mut Text,
) -> Result<(), NoMemory>
    requires { IsListed s.now }
    ensures { OnOk result (out.new ≡ out.old ++ line (rec_in s.now) (token_of table (suc row)) kind.now (member_text (recs_in s.now) (place_in s.now) owner name.now)) }
{
    let token = token_of(table, row as usize)?;
    let text = member_text(alloc, &s.asm, owner, name)?;
    put_line(s.asm.scope.rec, token, kind, text.as_slice(), out)
}

/// Puts the line of a type in a row, from 0, at the end.
fn put_type(alloc: Global, s: &Listed<'_>, row: u32, out: &mut Text) -> Result<(), NoMemory>
    requires { IsListed s.now }
    ensures { OnOk result (out.new ≡ out.old ++ line (rec_in s.now) (token_of TYPE_DEF (suc row)) (codes "type") (name_at (recs_in s.now) (at_row (place_in s.now) row))) }
{
    let token = token_of(table::TYPE_DEF, row as usize)?;
    let text = type_text(alloc, &s.asm, row)?;
    put_line(s.asm.scope.rec, token, b"type", text.as_slice(), out)
}

/// Puts the line of a type in a row, from 0, at the end, if it is kept.
#[tactic(auto, using(crate::proofs::Lines::none_more))]
fn put_kept_type(alloc: Global, s: &Listed<'_>, k: usize, out: &mut Text) -> Result<(), NoMemory>
    requires { IsListed s.now }
    ensures { OnOk result (out.new ≡ out.old ++ type_line (recs_in s.now) (kept_in s.now) (place_in s.now) (rec_in s.now) k) }
{
    let row = row_of(k)?;
    let kept = keeps(s, Kind::Type, row)?;
    if kept {
        return put_type(alloc, s, row, out);
    }
    Ok(())
}

/// Puts the lines of the kept types of an assembly at the end.
pub(crate) fn put_types(
    alloc: Global,
    s: &Listed<'_>,
    rows: &[TypeDefRow],
    out: &mut Text,
) -> Result<(), NoMemory>
    requires { IsListed s.now }
    ensures { OnOk result (out.new ≡ out.old ++ each_row (λ k t. type_line (recs_in s.now) (kept_in s.now) (place_in s.now) (rec_in s.now) k) rows.now) }
{
    for (k, _row) in rows.iter().enumerate() {
        put_kept_type(alloc, s, k, out)?;
    }
    Ok(())
}

/// Puts the line of a field in a row, from 0, at the end.
fn put_field(
    alloc: Global,
    s: &Listed<'_>,
    row: u32,
    f: &FieldRow,
    out: &mut Text,
) -> Result<(), NoMemory>
    requires { IsListed s.now }
    ensures { OnOk result (out.new ≡ out.old ++ line (rec_in s.now) (token_of FIELD (suc row)) (codes "field") (member_text (recs_in s.now) (place_in s.now) (owner_of_field (rec_in s.now) row) f.now.name)) }
{
    let owner = s.asm.owner_of_field(row)?;
    put_member(
        alloc,
        s,
        table::FIELD,
        row,
        b"field",
        owner,
        f.name.as_slice(),
        out,
    )
}

/// Puts the line of a field in a row, from 0, at the end, if it is kept.
#[tactic(auto, using(crate::proofs::Lines::none_more))]
fn put_kept_field(
    alloc: Global,
    s: &Listed<'_>,
    k: usize,
    f: &FieldRow,
    out: &mut Text,
) -> Result<(), NoMemory>
    requires { IsListed s.now }
    ensures { OnOk result (out.new ≡ out.old ++ field_line (recs_in s.now) (kept_in s.now) (place_in s.now) (rec_in s.now) k f.now) }
{
    let row = row_of(k)?;
    let kept = keeps(s, Kind::Field, row)?;
    if kept {
        return put_field(alloc, s, row, f, out);
    }
    Ok(())
}

/// Puts the lines of the kept fields of an assembly at the end.
pub(crate) fn put_fields(
    alloc: Global,
    s: &Listed<'_>,
    rows: &[FieldRow],
    out: &mut Text,
) -> Result<(), NoMemory>
    requires { IsListed s.now }
    ensures { OnOk result (out.new ≡ out.old ++ each_row (field_line (recs_in s.now) (kept_in s.now) (place_in s.now) (rec_in s.now)) rows.now) }
{
    for (k, f) in rows.iter().enumerate() {
        put_kept_field(alloc, s, k, f, out)?;
    }
    Ok(())
}

/// The row of a type.
fn row_in(at: Option<RowAt>) -> Option<u32>
    ensures { result ≡ row_in at }
{
    match at {
        None => None,
        Some(at) => Some(at.row),
    }
}

/// The row of the type that has a method, both from 0.
fn method_owner(s: &Listed<'_>, row: u32) -> Result<Option<u32>, NoMemory>
    requires { IsListed s.now }
    ensures { IfOk result (λ owner. owner ≡ row_in (type_of_method (recs_in s.now) (at_row (place_in s.now) row))) }
{
    let at = RowAt {
        asm: s.asm.scope.asm,
        row,
    };
    let marker = s.marker;
    let found = type_of_method(&marker.tables, at)?;
    let owner = row_in(found);
    Ok(owner)
}

/// Puts the line of a method in a row, from 0, at the end.
fn put_method(
    alloc: Global,
    s: &Listed<'_>,
    row: u32,
    m: &MethodDefRow,
    out: &mut Text,
) -> Result<(), NoMemory>
    requires { IsListed s.now }
    ensures { OnOk result (out.new ≡ out.old ++ line (rec_in s.now) (token_of METHOD_DEF (suc row)) (codes "method") (member_text (recs_in s.now) (place_in s.now) (row_in (type_of_method (recs_in s.now) (at_row (place_in s.now) row))) m.now.name)) }
{
    let owner = method_owner(s, row)?;
    put_member(
        alloc,
        s,
        table::METHOD_DEF,
        row,
        b"method",
        owner,
        m.name.as_slice(),
        out,
    )
}

/// Puts the line of a method in a row, from 0, at the end, if it is kept.
#[tactic(auto, using(crate::proofs::Lines::none_more))]
fn put_kept_method(
    alloc: Global,
    s: &Listed<'_>,
    k: usize,
    m: &MethodDefRow,
    out: &mut Text,
) -> Result<(), NoMemory>
    requires { IsListed s.now }
    ensures { OnOk result (out.new ≡ out.old ++ method_line (recs_in s.now) (kept_in s.now) (place_in s.now) (rec_in s.now) k m.now) }
{
    let row = row_of(k)?;
    let kept = keeps(s, Kind::Method, row)?;
    if kept {
        return put_method(alloc, s, row, m, out);
    }
    Ok(())
}

/// Puts the lines of the kept methods of an assembly at the end.
pub(crate) fn put_methods(
    alloc: Global,
    s: &Listed<'_>,
    rows: &[MethodDefRow],
    out: &mut Text,
) -> Result<(), NoMemory>
    requires { IsListed s.now }
    ensures { OnOk result (out.new ≡ out.old ++ each_row (method_line (recs_in s.now) (kept_in s.now) (place_in s.now) (rec_in s.now)) rows.now) }
{
    for (k, m) in rows.iter().enumerate() {
        put_kept_method(alloc, s, k, m, out)?;
    }
    Ok(())
}
