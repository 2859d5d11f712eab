//! The lines of an assembly's kept events and properties.

ghost use Rattle.std.specs.Prelude.{◌≡◌, ◌++◌, suc, codes, OnOk};
ghost use Rattle.il_base.specs.declared.table.TheConstants.{EVENT, PROPERTY};
ghost use Rattle.il_base.specs.world_model.Tokens.{token_of};
ghost use Rattle.rules.specs.type_rules.Rows.{each_row};
ghost use Rattle.rules.specs.mark_rules.Properties.{property_owner, event_owner};
ghost use Rattle.rules.specs.mark_rules.KeepList.{line, member_text};
ghost use Rattle.keep_lists.specs.Lists.{recs_in, place_in, rec_in, kept_in, event_line, property_line, IsListed};

use crate::listed::{Listed, keeps};
use crate::members::put_member;
use il_base::world_model::{EventRow, PropertyRow};
use il_base::{NoMemory, Text, table};
use mark_parts::mark_facts::kinds::Kind;
use mark_parts::mark_rows::rows::{event_owner, property_owner};
use std::alloc::Global;
use type_tables::member_search::counted::row_of;

/// Puts the line of an event in a row, from 0, at the end.
fn put_event(
    alloc: Global,
    s: &Listed<'_>,
    row: u32,
    e: &EventRow,
    out: &mut Text,
) -> Result<(), NoMemory>
    requires { IsListed s.now }
    ensures { OnOk result (out.new ≡ out.old ++ line (rec_in s.now) (token_of EVENT (suc row)) (codes "event") (member_text (recs_in s.now) (place_in s.now) (event_owner (rec_in s.now) row) e.now.name)) }
{
    let owner = event_owner(s.asm.scope.rec, row);
    put_member(
        alloc,
        s,
        table::EVENT,
        row,
        b"event",
        owner,
        e.name.as_slice(),
        out,
    )
}

/// Puts the line of an event in a row, from 0, at the end, if it is kept.
#[tactic(auto, using(crate::proofs::Lines::none_more))]
fn put_kept_event(
    alloc: Global,
    s: &Listed<'_>,
    k: usize,
    e: &EventRow,
    out: &mut Text,
) -> Result<(), NoMemory>
    requires { IsListed s.now }
    ensures { OnOk result (out.new ≡ out.old ++ event_line (recs_in s.now) (kept_in s.now) (place_in s.now) (rec_in s.now) k e.now) }
{
    let row = row_of(k)?;
    let kept = keeps(s, Kind::Event, row)?;
    if kept {
        return put_event(alloc, s, row, e, out);
    }
    Ok(())
}

/// Puts the lines of the kept events of an assembly at the end.
pub(crate) fn put_events(
    alloc: Global,
    s: &Listed<'_>,
    rows: &[EventRow],
    out: &mut Text,
) -> Result<(), NoMemory>
    requires { IsListed s.now }
    ensures { OnOk result (out.new ≡ out.old ++ each_row (event_line (recs_in s.now) (kept_in s.now) (place_in s.now) (rec_in s.now)) rows.now) }
{
    for (k, e) in rows.iter().enumerate() {
        put_kept_event(alloc, s, k, e, out)?;
    }
    Ok(())
}

/// Puts the line of a property in a row, from 0, at the end.
fn put_property(
    alloc: Global,
    s: &Listed<'_>,
    row: u32,
    p: &PropertyRow,
    out: &mut Text,
) -> Result<(), NoMemory>
    requires { IsListed s.now }
    ensures { OnOk result (out.new ≡ out.old ++ line (rec_in s.now) (token_of PROPERTY (suc row)) (codes "property") (member_text (recs_in s.now) (place_in s.now) (property_owner (rec_in s.now) row) p.now.name)) }
{
    let owner = property_owner(s.asm.scope.rec, row);
    put_member(
        alloc,
        s,
        table::PROPERTY,
        row,
        b"property",
        owner,
        p.name.as_slice(),
        out,
    )
}

/// Puts the line of a property in a row, from 0, at the end, if it is kept.
#[tactic(auto, using(crate::proofs::Lines::none_more))]
fn put_kept_property(
    alloc: Global,
    s: &Listed<'_>,
    k: usize,
    p: &PropertyRow,
    out: &mut Text,
) -> Result<(), NoMemory>
    requires { IsListed s.now }
    ensures { OnOk result (out.new ≡ out.old ++ property_line (recs_in s.now) (kept_in s.now) (place_in s.now) (rec_in s.now) k p.now) }
{
    let row = row_of(k)?;
    let kept = keeps(s, Kind::Property, row)?;
    if kept {
        return put_property(alloc, s, row, p, out);
    }
    Ok(())
}

/// Puts the lines of the kept properties of an assembly at the end.
pub(crate) fn put_properties(
    alloc: Global,
    s: &Listed<'_>,
    rows: &[PropertyRow],
    out: &mut Text,
) -> Result<(), NoMemory>
    requires { IsListed s.now }
    ensures { OnOk result (out.new ≡ out.old ++ each_row (property_line (recs_in s.now) (kept_in s.now) (place_in s.now) (rec_in s.now)) rows.now) }
{
    for (k, p) in rows.iter().enumerate() {
        put_kept_property(alloc, s, k, p, out)?;
    }
    Ok(())
}
