//! The marked set of a world, with its first bad item and its first operand that marking doesn't follow yet.

ghost use Rattle.std.specs.Prelude.{◌≡◌, IfOk};
ghost use Rattle.std.specs.Option.{option_map};
ghost use Rattle.rules.specs.link_rules.Linked.{IsWorld};
ghost use Rattle.mark_parts.specs.mark_tables.Assemblies.{all_of, IsMarker};
ghost use Rattle.attribute_values.specs.Tables.{AreAttributeTables};
ghost use Rattle.rules.specs.mark_rules.Marking.{Marks};
ghost use Rattle.rules.specs.mark_rules.BadItems.{IsFirstFlaw};
ghost use Rattle.rules.specs.mark_rules.NotYet.{IsFirstNotYet};
ghost use Rattle.bad_items.specs.mark_flaws.Told.{flaw_told};
ghost use Rattle.bad_items.specs.mark_flaws.Tables.{AreFlawTables};
ghost use Rattle.descriptor_texts.specs.slashed_names.Names.{AreNames};
ghost use Rattle.descriptor_texts.specs.descriptor_types.Types.{AreTypes};
ghost use Rattle.descriptor_texts.specs.nested_types.Nested.{AreNested};
ghost use Rattle.virtual_calls.specs.Slots.{AreSlots};
ghost use Rattle.mark_roots.specs.Lookups.{IsLookup, recs_in};
ghost use Rattle.descriptor_file.specs.declared.root.Root.{Root};
ghost use Rattle.std.specs.Prelude.{List};
ghost use Rattle.marking.specs.Holding.{IsMarked};
ghost use Rattle.base_laws.specs.flaw_laws.There.{RowsThere};

use crate::named_world::NamedWorld;
use attribute_values::tables::AttributeTables;
use bad_items::mark_flaws::flaw::Flaw;
use bad_items::mark_flaws::tables::FlawTables;
use bad_items::{Program, first_bad, first_not_yet};
use descriptor_file::Root;
use descriptor_texts::descriptor_types::types::DescriptorTypes;
use descriptor_texts::nested_types::nested::NestedTypes;
use descriptor_texts::slashed_names::names::SlashedNames;
use il_base::NoMemory;
use il_base::world_model::World;
use mark_parts::mark_tables::marker::Marker;
use mark_roots::lookup::Lookup;
use marking::{Marked, mark};
use rules::link_rules::RowAt;
use std::alloc::Global;
use type_system::Types;
use virtual_calls::slots::Slots;

/// What a program needs.
#[derive(Drop)]
pub struct Needs {
    /// The items that are needed, and what is known of types.
    pub marked: Marked,
    /// The first bad item among them, by assembly, token, offset in bytes and kind.
    pub flaw: Option<Flaw>,
    /// The assembly of the first operand of a needed method that names a member of reflection which does more than look at
    /// types, by assembly, token and offset.
    pub not_yet: Option<u32>,
}

/// What is marked, by all that is asked of a world.
fn marked_by<'a>(
    alloc: Global,
    lookup: Lookup<'a, 'a>,
    attributes: &'a AttributeTables<'a>,
    nested: &'a NestedTypes,
    system: &'a Types<'a>,
    slots: &Slots,
    entry: Option<RowAt>,
    roots: &'a [Root],
) -> Result<Marked, NoMemory>
    requires lookup { IsLookup lookup }
    requires attributes { AreAttributeTables lookup.marker.now attributes.now }
    requires nested { AreNested (recs_in lookup) nested.now }
    requires system { system.now ≡ lookup.marker.now.tables.world.now }
    requires slots { AreSlots (recs_in lookup) slots.now }
    ensures { IfOk result (IsMarked (recs_in lookup.entry) entry roots.now) }
{
    let marker = lookup.marker;
    let named = NamedWorld::of(alloc, lookup, attributes, nested, system, roots)?;
    let marked = mark(alloc, marker, slots, &named, entry)?;
    Ok(marked)
}

/// What is marked, by the names of types.
fn marked_under<'a>(
    alloc: Global,
    marker: &'a Marker<'a>,
    attributes: &'a AttributeTables<'a>,
    names: &'a SlashedNames,
    types: &'a DescriptorTypes<'a>,
    system: &'a Types<'a>,
    entry: Option<RowAt>,
    roots: &'a [Root],
) -> Result<Marked, NoMemory>
    requires marker { IsMarker marker.now }
    requires attributes { AreAttributeTables marker.now attributes.now }
    requires names { AreNames (all_of marker.now) names.now }
    requires types { AreTypes (all_of marker.now) types.now }
    requires system { system.now ≡ marker.now.tables.world.now }
    ensures { IfOk result (IsMarked (all_of marker.now) entry roots.now) }
{
    let slots = Slots::of(alloc, &marker.tables)?;
    let nested = NestedTypes::of(alloc, marker)?;
    let lookup = Lookup {
        marker,
        names,
        types,
    };
    let marked = marked_by(
        alloc, lookup, attributes, &nested, system, &slots, entry, roots,
    )?;
    Ok(marked)
}

/// What is marked of a world with its tables.
fn marked_of<'a>(
    alloc: Global,
    marker: &'a Marker<'a>,
    attributes: &'a AttributeTables<'a>,
    system: &'a Types<'a>,
    entry: Option<RowAt>,
    roots: &'a [Root],
) -> Result<Marked, NoMemory>
    requires marker { IsMarker marker.now }
    requires attributes { AreAttributeTables marker.now attributes.now }
    requires system { system.now ≡ marker.now.tables.world.now }
    ensures { IfOk result (IsMarked (all_of marker.now) entry roots.now) }
{
    let names = SlashedNames::of(alloc, marker)?;
    let types = DescriptorTypes::of(alloc, &names, marker)?;
    let marked = marked_under(
        alloc, marker, attributes, &names, &types, system, entry, roots,
    )?;
    Ok(marked)
}

/// The first bad item of what is marked.
fn flaw_of<'a>(
    alloc: Global,
    marker: &'a Marker<'a>,
    attributes: &'a AttributeTables<'a>,
    marked: &'a Marked,
    tables: &'a FlawTables,
    system: &'a Types<'a>,
    entry: Option<RowAt>,
) -> Result<Option<Flaw>, NoMemory>
    requires marker { IsMarker marker.now }
    requires attributes { AreAttributeTables marker.now attributes.now }
    requires tables { AreFlawTables (all_of marker.now) tables.now }
    requires system { system.now ≡ marker.now.tables.world.now }
    ensures { IfOk result (λ f. RowsThere (all_of marker.now) → (roots : List Root) → IsMarked (all_of marker.now) entry roots marked.now → IsFirstFlaw (all_of marker.now) entry (Marks (all_of marker.now) entry roots) (option_map flaw_told f)) }
{
    let program = Program {
        marker,
        attributes,
        tables,
        types: system,
        marked,
    };
    first_bad(alloc, &program, entry)
}

/// What a program needs, by the tables of its world.
fn needs_by<'a>(
    alloc: Global,
    marker: &'a Marker<'a>,
    attributes: &'a AttributeTables<'a>,
    tables: &'a FlawTables,
    system: &'a Types<'a>,
    entry: Option<RowAt>,
    roots: &'a [Root],
) -> Result<Needs, NoMemory>
    requires marker { IsMarker marker.now }
    requires attributes { AreAttributeTables marker.now attributes.now }
    requires tables { AreFlawTables (all_of marker.now) tables.now }
    requires system { system.now ≡ marker.now.tables.world.now }
    ensures marked { IfOk result (λ n. IsMarked (all_of marker.now) entry roots.now n.marked) }
    ensures flaw { IfOk result (λ n. RowsThere (all_of marker.now) → IsFirstFlaw (all_of marker.now) entry (Marks (all_of marker.now) entry roots.now) (option_map flaw_told n.flaw)) }
    ensures not_yet { IfOk result (λ n. IsFirstNotYet (all_of marker.now) (Marks (all_of marker.now) entry roots.now) n.not_yet) }
{
    let marked = marked_of(alloc, marker, attributes, system, entry, roots)?;
    let not_yet = first_not_yet(alloc, marker, &marked)?;
    let flaw = flaw_of(alloc, marker, attributes, &marked, tables, system, entry)?;
    Ok(Needs {
        marked,
        flaw,
        not_yet,
    })
}

/// What a program needs, by what is asked of its world.
fn needs_with(
    alloc: Global,
    marker: &Marker<'_>,
    system: &Types<'_>,
    entry: Option<RowAt>,
    roots: &[Root],
) -> Result<Needs, NoMemory>
    requires marker { IsMarker marker.now }
    requires system { system.now ≡ marker.now.tables.world.now }
    ensures marked { IfOk result (λ n. IsMarked (all_of marker.now) entry roots.now n.marked) }
    ensures flaw { IfOk result (λ n. RowsThere (all_of marker.now) → IsFirstFlaw (all_of marker.now) entry (Marks (all_of marker.now) entry roots.now) (option_map flaw_told n.flaw)) }
    ensures not_yet { IfOk result (λ n. IsFirstNotYet (all_of marker.now) (Marks (all_of marker.now) entry roots.now) n.not_yet) }
{
    let attributes = AttributeTables::of(alloc, marker)?;
    let tables = FlawTables::of(alloc, marker)?;
    let needs = needs_by(alloc, marker, &attributes, &tables, system, entry, roots)?;
    Ok(needs)
}

/// What a program needs of the world that a link gave, from an entry method by its row and the elements of descriptors.
pub fn needs_of(
    alloc: Global,
    world: &World,
    entry: Option<RowAt>,
    roots: &[Root],
) -> Result<Needs, NoMemory>
    requires { IsWorld world.now }
    ensures marked { IfOk result (λ n. IsMarked world.now.recs entry roots.now n.marked) }
    ensures flaw { IfOk result (λ n. RowsThere world.now.recs → IsFirstFlaw world.now.recs entry (Marks world.now.recs entry roots.now) (option_map flaw_told n.flaw)) }
    ensures not_yet { IfOk result (λ n. IsFirstNotYet world.now.recs (Marks world.now.recs entry roots.now) n.not_yet) }
{
    let marker = Marker::of(alloc, world)?;
    let system = Types::new(alloc, world)?;
    let needs = needs_with(alloc, &marker, &system, entry, roots)?;
    Ok(needs)
}
