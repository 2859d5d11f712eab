//! The lines of all inputs.

ghost use Rattle.std.specs.Prelude.{◌≡◌, ◌++◌, length, slice_get, IfOk, OnOk};
ghost use Rattle.std.specs.List.{flat_map};
ghost use Rattle.rules.specs.link_rules.Cycles.{listed};
ghost use Rattle.rules.specs.type_rules.Rows.{each_row};
ghost use Rattle.rules.specs.mark_rules.KeepList.{lines_of, input_lines, keep_list};
ghost use Rattle.mark_parts.specs.mark_tables.Assemblies.{all_of, IsMarker};
ghost use Rattle.merge_plan.specs.Kept.{kept_by};
ghost use Rattle.keep_lists.specs.Lists.{recs_in, place_in, rec_in, kept_in, IsListed};

use crate::listed::Listed;
use crate::mapped::{put_events, put_properties};
use crate::members::{put_fields, put_methods, put_types};
use il_base::{NoMemory, Seq, Text};
use mark_parts::mark_tables::marker::Marker;
use merge_plan::KeptItems;
use std::alloc::Global;
use type_tables::member_search::counted::row_of;

/// Puts the lines of an assembly's kept items at the end.
#[tactic(auto, using(crate::proofs::Lines::five_put))]
fn put_lines(alloc: Global, s: &Listed<'_>, out: &mut Text) -> Result<(), NoMemory>
    requires { IsListed s.now }
    ensures { OnOk result (out.new ≡ out.old ++ lines_of (recs_in s.now) (kept_in s.now) (place_in s.now) (rec_in s.now)) }
{
    let rec = s.asm.scope.rec;
    put_types(alloc, s, rec.type_def.as_slice(), out)?;
    put_fields(alloc, s, rec.field.as_slice(), out)?;
    put_methods(alloc, s, rec.method_def.as_slice(), out)?;
    put_events(alloc, s, rec.event.as_slice(), out)?;
    put_properties(alloc, s, rec.property.as_slice(), out)
}

/// Puts the lines of an assembly's kept items at the end, unless it is the core library.
#[tactic(auto, using(crate::proofs::Lines::none_more))]
fn put_input_lines(alloc: Global, s: &Listed<'_>, out: &mut Text) -> Result<(), NoMemory>
    requires { IsListed s.now }
    ensures { OnOk result (out.new ≡ out.old ++ input_lines (recs_in s.now) (kept_in s.now) (place_in s.now) (rec_in s.now)) }
{
    if s.asm.scope.asm as usize + 1 == s.asm.scope.linked.all.len() {
        return Ok(());
    }
    put_lines(alloc, s, out)
}

/// Puts the lines of the assembly in a place, from 0, at the end.
fn put_input<'a>(
    alloc: Global,
    marker: &'a Marker<'a>,
    kept: &'a KeptItems,
    a: u32,
    out: &mut Text,
) -> Result<(), NoMemory>
    requires { IsMarker marker.now }
    ensures { OnOk result (out.new ≡ out.old ++ flat_map (input_lines (all_of marker.now) (kept_by kept.now) a) (listed (slice_get (all_of marker.now) a))) }
{
    let Some(asm) = marker.assembly_at(a) else {
        return Ok(());
    };
    let s = Listed { marker, asm, kept };
    put_input_lines(alloc, &s, out)?;
    Ok(())
}

/// Puts the lines of all inputs at the end.
fn put_inputs<'a>(
    alloc: Global,
    marker: &'a Marker<'a>,
    kept: &'a KeptItems,
    count: usize,
    out: &mut Text,
) -> Result<(), NoMemory>
    requires marker { IsMarker marker.now }
    requires count { count ≡ length (all_of marker.now) }
    ensures { OnOk result (out.new ≡ out.old ++ each_row (input_lines (all_of marker.now) (kept_by kept.now)) (all_of marker.now)) }
{
    for a in 0..count {
        let place = row_of(a)?;
        put_input(alloc, marker, kept, place, out)?;
    }
    Ok(())
}

/// The text of the keep list.
#[tactic(auto, unfolding(rules::specs::mark_rules::KeepList::keep_list))]
pub fn keep_list<'a>(
    alloc: Global,
    marker: &'a Marker<'a>,
    kept: &'a KeptItems,
) -> Result<Text, NoMemory>
    requires { IsMarker marker.now }
    ensures { IfOk result (λ text. text ≡ keep_list (all_of marker.now) (kept_by kept.now)) }
{
    let mut out = Seq::new(alloc);
    put_inputs(
        alloc,
        marker,
        kept,
        marker.tables.world.recs.len(),
        &mut out,
    )?;
    Ok(out)
}
