//! A world and the elements of descriptors.

ghost use Rattle.std.specs.Prelude.{◌≡◌, IfOk};
ghost use Rattle.attribute_values.specs.Tables.{AreAttributeTables};
ghost use Rattle.descriptor_texts.specs.nested_types.Nested.{AreNested};
ghost use Rattle.mark_roots.specs.Lookups.{recs_in, IsLookup};

use attribute_values::tables::AttributeTables;
use descriptor_file::Root;
use descriptor_texts::nested_types::nested::NestedTypes;
use il_base::{Item, NoMemory};
use mark_dependencies::dependencies::add_dependency_needs;
use mark_dependencies::item_dependencies::items::dependencies;
use mark_dependencies::lookup::Lookup as Dependent;
use mark_dependencies::mark_attributes::needs::attribute_needs;
use mark_flow::add_flow_marks;
use mark_flow::tables::FlowTables;
use mark_items::named_rules::NamedRules;
use mark_parts::mark_facts::facts::Facts;
use mark_roots::lookup::Lookup;
use mark_roots::roots::add_start;
use mark_roots::waiting::Waiting;
use rules::link_rules::RowAt;
use site_kinds::known::Annotated;
use std::alloc::Global;
use std::marker::Model;
use type_system::Types;

/// A world that a link gave and the elements of descriptors, with what the rules look up, made once. Contracts see the assemblies
/// and the elements.
#[derive(Drop)]
pub struct NamedWorld<'a> {
    lookup: Lookup<'a, 'a>,
    attributes: &'a AttributeTables<'a>,
    nested: &'a NestedTypes,
    types: &'a Types<'a>,
    roots: &'a [Root],
    waiting: Waiting,
}

impl<'a> Model for NamedWorld<'a> {
    ghost use Rattle.std.specs.Prelude.{◌≡◌, List};
    ghost use Rattle.std.specs.Coded.{codes};
    ghost use Rattle.il_base.specs.contracts.world_model.record.AsmRec as asm_rec;
    ghost use Rattle.descriptor_file.specs.contracts.root.Root as root;
    ghost use Rattle.attribute_values.specs.Tables.{AreAttributeTables};
    ghost use Rattle.descriptor_texts.specs.nested_types.Nested.{AreNested};
    ghost use Rattle.mark_roots.specs.Lookups.{recs_in, IsLookup};
    ghost use Rattle.mark_roots.specs.Waiting.{AreWaiting};
    ghost use Rattle.program_marks.specs.named_world.Described.{Described};

    ghost Value = { Described };

    ghost coded = { Prim.hlevel (codes, asm_rec.the_row.coded, root.the_row.coded) };

    ghost view = { λ w. record { recs = recs_in w.lookup; roots = w.roots.now } };

    ghost invariant = { λ w. IsLookup w.lookup × AreAttributeTables w.lookup.marker.now w.attributes.now × AreNested (recs_in w.lookup) w.nested.now × (w.types.now ≡ w.lookup.marker.now.tables.world.now) × AreWaiting (recs_in w.lookup) w.roots.now w.waiting };
}

impl<'a> NamedWorld<'a> {
    /// The rules for a world and the elements of descriptors.
    pub fn of(
        alloc: Global,
        lookup: Lookup<'a, 'a>,
        attributes: &'a AttributeTables<'a>,
        nested: &'a NestedTypes,
        types: &'a Types<'a>,
        roots: &'a [Root],
    ) -> Result<NamedWorld<'a>, NoMemory>
        requires lookup { IsLookup lookup }
        requires attributes { AreAttributeTables lookup.marker.now attributes.now }
        requires nested { AreNested (recs_in lookup) nested.now }
        requires types { types.now ≡ lookup.marker.now.tables.world.now }
        ensures recs { IfOk result (λ w. w.recs ≡ recs_in lookup.entry) }
        ensures roots { IfOk result (λ w. w.roots ≡ roots.now) }
    {
        let waiting = Waiting::of(alloc, &lookup, roots)?;
        Ok(NamedWorld {
            lookup,
            attributes,
            nested,
            types,
            roots,
            waiting,
        })
    }
}

impl<'a> NamedRules for NamedWorld<'a> {
    ghost recs_of = { λ w. w.recs };

    ghost roots_of = { λ w. w.roots };

    fn add_attributes(&self, alloc: Global, item: Item, facts: &mut Facts) -> Result<(), NoMemory> {
        let marker = self.lookup.marker;
        attribute_needs(alloc, marker, self.attributes, item, facts)
    }

    fn add_dependencies(
        &self,
        alloc: Global,
        item: Item,
        facts: &mut Facts,
    ) -> Result<(), NoMemory> {
        let marker = self.lookup.marker;
        let attributes = self.attributes;
        let dependent = Dependent {
            marker,
            nested: self.nested,
            names: &attributes.names,
        };
        let needed = dependencies(alloc, marker, attributes, item)?;
        add_dependency_needs(alloc, &dependent, item, &needed, facts)
    }

    fn add_waiting(&self, alloc: Global, item: Item, facts: &mut Facts) -> Result<(), NoMemory> {
        self.waiting
            .add(alloc, &self.lookup, self.roots, item, facts)
    }

    fn add_flow(&self, alloc: Global, item: Item, facts: &mut Facts) -> Result<(), NoMemory> {
        let marker = self.lookup.marker;
        let tables = FlowTables {
            annotated: Annotated {
                marker,
                tables: self.attributes,
            },
            types: self.types,
            nested: self.nested,
        };
        add_flow_marks(alloc, &tables, item, facts)
    }

    fn add_start(
        &self,
        alloc: Global,
        entry: Option<RowAt>,
        facts: &mut Facts,
    ) -> Result<(), NoMemory> {
        add_start(alloc, &self.lookup, entry, self.roots, facts)
    }
}
