//! The rows of FieldRVA (II.22.18), with the bytes that their addresses name.

ghost use Rattle.std.specs.Prelude.{◌≡◌, IfOk};
ghost use Rattle.std.specs.Option.{option_map, option_and_then};
ghost use Rattle.il_base.specs.declared.table.TheConstants.{FIELD_RVA};
ghost use Rattle.il_base.specs.cli_format.Image.{metadata_of, image_at};
ghost use Rattle.rules.specs.record_format.Cells.{all_rows};
ghost use Rattle.rules.specs.record_format.Parts as parts;
ghost use Rattle.rules.specs.record_format.Others as others;
ghost use Rattle.world_reader.specs.cell_reader.Cells.{HasRow};

use crate::cell_reader::Assembly;
use crate::layouts::Layouts;
use il_base::world_model::{BadKind, FieldRow, FieldRvaRow, Known, index_in};
use il_base::{NoMemory, Seq, Sig, Text, element, outside, table};
use std::alloc::Global;

/// The size in bytes of a primitive, by its element type (II.23.1.16).
#[tactic(auto, unfolding(rules::specs::record_format::Parts::primitive_size))]
fn primitive_size(kind: u8) -> Option<u32>
    ensures { result ≡ parts.primitive_size kind }
{
    if kind == element::BOOLEAN || kind == element::I1 || kind == element::U1 {
        Some(1)
    } else if kind == element::CHAR || kind == element::I2 || kind == element::U2 {
        Some(2)
    } else if kind == element::I4 || kind == element::U4 {
        Some(4)
    } else if kind == element::I8 || kind == element::U8 {
        Some(8)
    } else {
        None
    }
}

/// The size in bytes of a type.
fn size_of_type(layouts: &Layouts, sig: &Sig) -> Option<u32>
    ensures { result ≡ parts.size_of_type layouts.now sig.now }
{
    match sig {
        Sig::Prim(kind) => primitive_size(*kind),
        Sig::Named { value: _, token } => layouts.size(*token),
        Sig::Array(_) => None,
        Sig::ByRef(_) => None,
        Sig::Inst {
            value: _,
            token: _,
            args: _,
        } => None,
        Sig::Var(_) => None,
        Sig::MVar(_) => None,
        Sig::Mod {
            required: _,
            token: _,
            inner: _,
        } => None,
        Sig::Pinned(_) => None,
    }
}

/// The size in bytes of a field.
fn size_of_field(layouts: &Layouts, field: &FieldRow) -> Option<u32>
    ensures { result ≡ parts.size_of_field layouts.now field.now }
{
    match &field.signature {
        Known::Good(sig) => size_of_type(layouts, sig),
        Known::Bad(_) => None,
    }
}

/// The size in bytes of a field by its token.
fn size_by(layouts: &Layouts, fields: &[FieldRow], token: u32) -> Option<u32>
    ensures { result ≡ parts.size_by layouts.now fields.now token }
{
    match index_in(table::FIELD, token) {
        None => None,
        Some(at) => match fields.get(at as usize) {
            None => None,
            Some(field) => size_of_field(layouts, field),
        },
    }
}

/// The bytes from an RVA, `size` of them, where they are there.
fn bytes_at<'a>(file: &Assembly<'a>, rva: u32, size: Option<u32>) -> Option<&'a [u8]>
    ensures { option_map (λ b. b.now) result ≡ option_and_then (image_at file.now rva) size }
{
    match size {
        None => None,
        Some(size) => file.bytes_at(rva, size),
    }
}

/// A copy of `size` bytes from an RVA, where they are there.
#[tactic(auto, unfolding(rules::specs::record_format::Parts::bytes_by))]
fn bytes_by(
    alloc: Global,
    file: &Assembly,
    rva: u32,
    size: Option<u32>,
) -> Result<Known<Text>, NoMemory>
    ensures { IfOk result (λ b. b ≡ parts.bytes_by file.now rva size) }
{
    match bytes_at(file, rva, size) {
        None => Ok(Known::Bad(BadKind::Outside(outside::FIELD_DATA))),
        Some(bytes) => {
            let bytes = Seq::from_slice(alloc, bytes)?;
            Ok(Known::Good(bytes))
        }
    }
}

/// FieldRVA (II.22.18), by the rows of ClassLayout and of Field.
#[tactic(auto, unfolding(rules::specs::record_format::Others::field_rva_row, il_base::specs::cli_format::Columns::columns_of, il_base::specs::cli_format::Columns::schema))]
fn field_rva_row(
    alloc: Global,
    file: &Assembly,
    layouts: &Layouts,
    fields: &[FieldRow],
    row: u32,
) -> Result<FieldRvaRow, NoMemory>
    requires { HasRow (metadata_of file.now) FIELD_RVA row }
    ensures { IfOk result (λ r. r ≡ others.field_rva_row file.now (metadata_of file.now) layouts.now fields.now row) }
{
    let rva = file.word(table::FIELD_RVA, 0, row);
    let field = file.token(table::FIELD_RVA, 1, row);
    let bytes = bytes_by(alloc, file, rva, size_by(layouts, fields, field))?;
    Ok(FieldRvaRow { rva, field, bytes })
}

/// The rows of FieldRVA.
#[tactic(auto, using(crate::proofs::lemmas::row_reader::Rows::rowing))]
pub fn field_rva_rows(
    alloc: Global,
    file: &Assembly,
    layouts: &Layouts,
    fields: &[FieldRow],
) -> Result<Seq<FieldRvaRow>, NoMemory>
    ensures { IfOk result (λ rows. rows ≡ all_rows (metadata_of file.now) FIELD_RVA (others.field_rva_row file.now (metadata_of file.now) layouts.now fields.now)) }
{
    let mut rows = Seq::new(alloc);
    for i in 0..file.count(table::FIELD_RVA) {
        let row = field_rva_row(alloc, file, layouts, fields, i + 1)?;
        rows.push(row)?;
    }
    Ok(rows)
}
