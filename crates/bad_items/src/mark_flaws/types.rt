//! What is wrong with a type (II.10.1.2, II.10.5.3.3, II.10.1.7).

ghost use Rattle.std.specs.Prelude.{◌≡◌, ◌++◌, IfOk, OnOk};
ghost use Rattle.std.specs.List.{list_any};
ghost use Rattle.rules.specs.type_rules.Rows.{fields_of_type, is_instance_field};
ghost use Rattle.rules.specs.mark_rules.BadItems.{has_explicit_fields, has_module_initializer, type_flaws};
ghost use Rattle.mark_parts.specs.mark_tables.Assemblies.{all_of, rec_of, IsAssembly, IsMarker};

use crate::mark_flaws::flaws::Flaws;
use crate::mark_flaws::generics::add_variance;
use il_base::world_model::{TypeDefRow, token_of};
use il_base::{NoMemory, has_type_flag, outside, table, type_flags};
use mark_parts::mark_rows::members::fields_of_type;
use mark_parts::mark_rows::rows::is_instance_field;
use mark_parts::mark_tables::assembly::Assembly;
use mark_parts::mark_tables::marker::Marker;
use rules::link_rules::RowAt;
use std::alloc::Global;

/// Whether a type has an instance field of its own.
fn has_instance_fields(alloc: Global, marker: &Marker<'_>, at: RowAt) -> Result<bool, NoMemory>
    requires { IsMarker marker.now }
    ensures { IfOk result (λ has. has ≡ list_any (is_instance_field (all_of marker.now)) (fields_of_type (all_of marker.now) at)) }
{
    let all = marker.tables.world.recs.as_slice();
    let fields = fields_of_type(alloc, marker, at)?;
    let has = fields.as_slice().iter().any(|f| is_instance_field(all, *f));
    Ok(has)
}

/// Whether a type has explicit layout and an instance field of its own.
fn has_explicit_fields(
    alloc: Global,
    marker: &Marker<'_>,
    at: RowAt,
    t: &TypeDefRow,
) -> Result<bool, NoMemory>
    requires { IsMarker marker.now }
    ensures { IfOk result (λ has. has ≡ has_explicit_fields (all_of marker.now) at t.now) }
{
    if !has_type_flag(t.flags, type_flags::EXPLICIT_LAYOUT) {
        return Ok(false);
    }
    has_instance_fields(alloc, marker, at)
}

/// Puts what is wrong with a type at the end, where `initializer` says whether its assembly's `<Module>` has an initializer.
#[tactic(auto, using(crate::proofs::lemmas::mark_flaws::Lists::three_put))]
pub(crate) fn add_type(
    alloc: Global,
    marker: &Marker<'_>,
    asm: &Assembly<'_>,
    initializer: bool,
    at: RowAt,
    t: &TypeDefRow,
    flaws: &mut Flaws,
) -> Result<(), NoMemory>
    requires marker { IsMarker marker.now }
    requires asm { IsAssembly asm.now }
    requires initializer { initializer ≡ has_module_initializer (all_of marker.now) at.asm }
    ensures { OnOk result (flaws.new ≡ flaws.old ++ type_flaws (all_of marker.now) at (rec_of asm.now) t.now) }
{
    let explicit = has_explicit_fields(alloc, marker, at, t)?;
    let token = token_of(table::TYPE_DEF, at.row as usize)?;
    flaws.put_if(explicit, at, token, outside::LAYOUT)?;
    flaws.put_if(initializer, at, token, outside::MODULE_INITIALIZER)?;
    add_variance(asm, at, token, flaws)
}
