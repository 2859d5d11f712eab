//! Properties and events by name.

ghost use Rattle.std.specs.Prelude.{◌≡◌, IfOk};
ghost use Rattle.std.specs.List.{filter};
ghost use Rattle.rules.specs.mark_rules.Attributes.{is_property_called};
ghost use Rattle.rules.specs.mark_rules.Dependencies.{is_event_called};

use il_base::NoMemory;
use il_base::world_model::AsmRec;
use mark_items::mark_named::properties::is_property_called;
use rules::link_rules::RowAt;
use std::alloc::Global;

/// Whether an event is there, and has this name.
pub fn is_event_called(all: &[AsmRec], name: &[u8], at: RowAt) -> bool
    ensures { result ≡ is_event_called all.now name.now at }
{
    match all.get(at.asm as usize) {
        None => false,
        Some(rec) => match rec.event.get(at.row as usize) {
            None => false,
            Some(e) => e.name.as_slice() == name,
        },
    }
}

/// Those of these properties that have this name.
pub fn properties_called(
    alloc: Global,
    all: &[AsmRec],
    name: &[u8],
    rows: &[RowAt],
) -> Result<Vec<RowAt>, NoMemory>
    ensures { IfOk result (λ found. found.items ≡ filter (is_property_called all.now name.now) rows.now) }
{
    let mut found = Vec::new(alloc);
    for at in rows {
        if is_property_called(all, name, *at) {
            found.push(*at)?;
        }
    }
    Ok(found)
}

/// Those of these events that have this name.
pub fn events_called(
    alloc: Global,
    all: &[AsmRec],
    name: &[u8],
    rows: &[RowAt],
) -> Result<Vec<RowAt>, NoMemory>
    ensures { IfOk result (λ found. found.items ≡ filter (is_event_called all.now name.now) rows.now) }
{
    let mut found = Vec::new(alloc);
    for at in rows {
        if is_event_called(all, name, *at) {
            found.push(*at)?;
        }
    }
    Ok(found)
}
