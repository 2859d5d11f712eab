//! The full names of types.

ghost use Rattle.std.specs.Prelude.{◌≡◌, ◌++◌, IfOk, OnOk};
ghost use Rattle.rules.specs.type_rules.Texts.{full_name};

use il_base::world_model::TypeDefRow;
use il_base::{NoMemory, Seq, Text};
use std::alloc::Global;

/// Puts a type's namespace, if it has one, a full stop and its name at the end.
fn put_full_name(row: &TypeDefRow, out: &mut Text) -> Result<(), NoMemory>
    ensures { OnOk result (out.new ≡ out.old ++ full_name row.now) }
{
    if !row.namespace.is_empty() {
        out.extend_from_slice(row.namespace.as_slice())?;
        out.push(b'.')?;
    }
    out.extend_from_slice(row.name.as_slice())?;
    Ok(())
}

/// The full name of a type: its namespace, if it has one, a full stop and its name.
pub fn full_name(alloc: Global, t: &TypeDefRow) -> Result<Text, NoMemory>
    ensures { IfOk result (λ text. text ≡ full_name t.now) }
{
    let mut text = Seq::new(alloc);
    put_full_name(t, &mut text)?;
    Ok(text)
}
