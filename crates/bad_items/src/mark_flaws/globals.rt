//! Members of `<Module>` (II.15.1.2), and assemblies whose `<Module>` has an initializer (II.10.5.3.3).

ghost use Rattle.std.specs.Prelude.{◌≡◌, IfOk};
ghost use Rattle.std.specs.List.{list_any};
ghost use Rattle.rules.specs.type_rules.Rows.{is_module_type, methods_of_type};
ghost use Rattle.rules.specs.mark_rules.BadItems.{has_module_initializer};
ghost use Rattle.mark_parts.specs.mark_tables.Assemblies.{all_of, IsMarker};
ghost use Rattle.bad_items.specs.mark_flaws.Rows.{is_module_at, is_initializer_name};

use il_base::NoMemory;
use il_base::world_model::{AsmRec, TypeDefRow};
use mark_parts::mark_rows::members::methods_of_type;
use mark_parts::mark_tables::marker::Marker;
use rules::link_rules::RowAt;
use std::alloc::Global;
use type_tables::methods::method_row_at;

/// Whether the row of a type is the `<Module>` of its assembly.
fn is_module_type(k: u32, t: &TypeDefRow) -> bool
    ensures { result ≡ is_module_type k t.now }
{
    k == 0 && t.name.as_slice() == b"<Module>".as_slice() && t.namespace.is_empty()
}

/// Whether a type, by its row, is the `<Module>` of its assembly.
pub(crate) fn is_module_at(all: &[AsmRec], t: RowAt) -> bool
    ensures { result ≡ is_module_at all.now t }
{
    match all.get(t.asm as usize) {
        Some(rec) => match rec.type_def.get(t.row as usize) {
            Some(row) => is_module_type(t.row, row),
            None => false,
        },
        None => false,
    }
}

/// Whether a method is named as a type's initializer is.
fn is_initializer_named(all: &[AsmRec], at: RowAt) -> bool
    ensures { result ≡ is_initializer_name all.now at }
{
    match method_row_at(all, at) {
        Some(m) => m.name.as_slice() == b".cctor".as_slice(),
        None => false,
    }
}

/// Whether a type, by its row, is `<Module>` and has an initializer.
fn has_initializer(alloc: Global, marker: &Marker<'_>, t: RowAt) -> Result<bool, NoMemory>
    requires { IsMarker marker.now }
    ensures { IfOk result (λ has. has ≡ list_any (is_initializer_name (all_of marker.now)) (methods_of_type (all_of marker.now) t)) }
{
    let all = marker.tables.world.recs.as_slice();
    let methods = methods_of_type(alloc, marker, t)?;
    let has = methods
        .as_slice()
        .iter()
        .any(|m| is_initializer_named(all, *m));
    Ok(has)
}

/// Whether the `<Module>` of an assembly has an initializer.
pub(crate) fn module_initializer(
    alloc: Global,
    marker: &Marker<'_>,
    asm: u32,
) -> Result<bool, NoMemory>
    requires { IsMarker marker.now }
    ensures { IfOk result (λ has. has ≡ has_module_initializer (all_of marker.now) asm) }
{
    let t = RowAt { asm, row: 0 };
    if !is_module_at(marker.tables.world.recs.as_slice(), t) {
        return Ok(false);
    }
    has_initializer(alloc, marker, t)
}
