//! Which members count: public ones of a type itself, public ones of instances of its bases.

ghost use Rattle.std.specs.Prelude.{◌≡◌, IfOk};
ghost use Rattle.rules.specs.type_rules.Searches.{field_test, method_test, is_constructor};
ghost use Rattle.type_tables.specs.Tables.{IsTables};
ghost use Rattle.virtual_calls.specs.named_members.Counts.{passes_field, passes_method, mapped_counts, counts};

use crate::named_members::accessors::{accessors, any_instance, any_public};
use crate::named_members::kinds::{Kind, Mapped};
use il_base::world_model::{AsmRec, FieldRow, MethodDefRow};
use il_base::{NoMemory, access_of, field_flags, has_flag, method_flags};
use rules::link_rules::RowAt;
use std::alloc::Global;
use type_tables::member_search::linked::assembly_at;
use type_tables::methods::method_row_at;
use type_tables::tables::Tables;

fn passes_field(row: &FieldRow, inherited: bool) -> bool
    ensures { result ≡ passes_field inherited row.now }
{
    access_of(row.flags) == field_flags::PUBLIC
        && (!inherited || !has_flag(row.flags, field_flags::STATIC))
}

/// Whether a method is an instance or a type initializer (II.10.5.1, II.10.5.3).
fn is_constructor(row: &MethodDefRow) -> bool
    ensures { result ≡ is_constructor row.now }
{
    row.name.as_slice() == b".ctor".as_slice() || row.name.as_slice() == b".cctor".as_slice()
}

fn passes_method(row: &MethodDefRow, inherited: bool) -> bool
    ensures { result ≡ passes_method inherited row.now }
{
    access_of(row.flags) == method_flags::PUBLIC
        && !is_constructor(row)
        && (!inherited || !has_flag(row.flags, method_flags::STATIC))
}

fn field_counts(all: &[AsmRec], inherited: bool, at: RowAt) -> bool
    ensures { result ≡ field_test all.now (passes_field inherited) at }
{
    let Some(rec) = assembly_at(all, at.asm) else {
        return false;
    };
    match rec.field.get(at.row as usize) {
        Some(row) => passes_field(row, inherited),
        None => false,
    }
}

fn method_counts(all: &[AsmRec], inherited: bool, at: RowAt) -> bool
    ensures { result ≡ method_test all.now (passes_method inherited) at }
{
    match method_row_at(all, at) {
        Some(row) => passes_method(row, inherited),
        None => false,
    }
}

/// Whether an accessor of a property or an event is public, and of a base's one is of instances.
fn mapped_counts(
    alloc: Global,
    tables: &Tables<'_>,
    mapped: Mapped,
    inherited: bool,
    at: RowAt,
) -> Result<bool, NoMemory>
    requires { IsTables tables.now }
    ensures { IfOk result (λ counts. counts ≡ mapped_counts tables.now.world.now.recs mapped inherited at) }
{
    let all = tables.world.recs.as_slice();
    let methods = accessors(alloc, tables, mapped, at)?;
    Ok(any_public(all, methods.as_slice()) && (!inherited || any_instance(all, methods.as_slice())))
}

/// Whether a member counts, of a type itself or of a base of it.
pub fn counts(
    alloc: Global,
    tables: &Tables<'_>,
    kind: Kind,
    inherited: bool,
    at: RowAt,
) -> Result<bool, NoMemory>
    requires { IsTables tables.now }
    ensures { IfOk result (λ does. does ≡ counts tables.now.world.now.recs kind inherited at) }
{
    match kind {
        Kind::Field => Ok(field_counts(tables.world.recs.as_slice(), inherited, at)),
        Kind::Method => Ok(method_counts(tables.world.recs.as_slice(), inherited, at)),
        Kind::Property => mapped_counts(alloc, tables, Mapped::Property, inherited, at),
        Kind::Event => mapped_counts(alloc, tables, Mapped::Event, inherited, at),
    }
}
