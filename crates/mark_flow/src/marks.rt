//! What the sites of a marked item mark.

ghost use Rattle.std.specs.Prelude.{◌≡◌, ◌++◌, OnOk};
ghost use Rattle.std.specs.List.{flat_map};
ghost use Rattle.rules.specs.mark_rules.FlowMarks.{asked_of, found_by_name, source_marks, site_marks, flow_marks};
ghost use Rattle.mark_flow.specs.Tables.{recs_in, AreFlowTables};
ghost use Rattle.mark_flow.specs.Asked.{asked_by};

use crate::asked::{add_asked_of, add_seen};
use crate::found::known_types;
use crate::items::item_sites;
use crate::tables::FlowTables;
use il_base::{Item, NoMemory, TypeId, Units};
use mark_parts::mark_facts::facts::Facts;
use rules::flow_rules::Source;
use rules::site_rules::{Site, Target};
use std::alloc::Global;
use value_flow::type_of_text;

/// Adds what a site asks for of each type.
fn add_asked_of_all(
    alloc: Global,
    tables: &FlowTables<'_>,
    site: &Site,
    known: &[TypeId],
    facts: &mut Facts,
) -> Result<(), NoMemory>
    requires { AreFlowTables tables.now }
    ensures { OnOk result (facts.new ≡ facts.old ++ flat_map (asked_of (recs_in tables.now) site.now) known.now) }
{
    for t in known {
        add_asked_of(alloc, tables, site, *t, facts)?;
    }
    Ok(())
}

/// Adds what a site asks for of the types that a source stands for.
fn add_asked_by(
    alloc: Global,
    tables: &FlowTables<'_>,
    site: &Site,
    to: Target,
    source: &Source,
    facts: &mut Facts,
) -> Result<(), NoMemory>
    requires { AreFlowTables tables.now }
    ensures { OnOk result (facts.new ≡ facts.old ++ asked_by (recs_in tables.now) site.now to source.now) }
{
    let known = known_types(alloc, tables, to, source)?;
    add_asked_of_all(alloc, tables, site, known.as_slice(), facts)
}

/// Adds that the type which a text finds from an assembly, by its place from 0, is marked and shown.
#[tactic(auto, using(crate::proofs::Lists::none_more))]
fn add_type_found(
    alloc: Global,
    tables: &FlowTables<'_>,
    asm: u32,
    text: &Units,
    facts: &mut Facts,
) -> Result<(), NoMemory>
    requires { AreFlowTables tables.now }
    ensures { OnOk result (facts.new ≡ facts.old ++ found_by_name (recs_in tables.now) asm (Source.KnownText text.now)) }
{
    match type_of_text(alloc, tables.types, asm, text) {
        Err(error) => Err(error),
        Ok(None) => Ok(()),
        Ok(Some(t)) => add_seen(t, facts),
    }
}

/// Adds that the type is marked and shown which a known name finds from an assembly.
#[tactic(auto, using(crate::proofs::Lists::none_more))]
fn add_found_by_name(
    alloc: Global,
    tables: &FlowTables<'_>,
    asm: u32,
    source: &Source,
    facts: &mut Facts,
) -> Result<(), NoMemory>
    requires { AreFlowTables tables.now }
    ensures { OnOk result (facts.new ≡ facts.old ++ found_by_name (recs_in tables.now) asm source.now) }
{
    match source {
        Source::KnownType(_) => Ok(()),
        Source::KnownHandle(_) => Ok(()),
        Source::KnownText(text) => add_type_found(alloc, tables, asm, text, facts),
        Source::Null => Ok(()),
        Source::Parameter(_) => Ok(()),
        Source::Return(_) => Ok(()),
        Source::Field(_) => Ok(()),
        Source::TypeParam(_, _) => Ok(()),
        Source::MethodParam(_) => Ok(()),
        Source::Opaque => Ok(()),
    }
}

/// Adds what a source makes necessary at a target of a site.
fn add_source(
    alloc: Global,
    tables: &FlowTables<'_>,
    site: &Site,
    to: Target,
    source: &Source,
    facts: &mut Facts,
) -> Result<(), NoMemory>
    requires { AreFlowTables tables.now }
    ensures { OnOk result (facts.new ≡ facts.old ++ source_marks (recs_in tables.now) site.now to source.now) }
{
    match to {
        Target::Param(_, _) => add_asked_by(alloc, tables, site, to, source, facts),
        Target::Return(_) => add_asked_by(alloc, tables, site, to, source, facts),
        Target::Field(_) => add_asked_by(alloc, tables, site, to, source, facts),
        Target::This(_) => add_asked_by(alloc, tables, site, to, source, facts),
        Target::TypeArg(_, _) => add_asked_by(alloc, tables, site, to, source, facts),
        Target::MethodArg(_, _) => add_asked_by(alloc, tables, site, to, source, facts),
        Target::Name(_) => add_found_by_name(alloc, tables, site.place.asm, source, facts),
        Target::Unreferenced(_) => add_asked_by(alloc, tables, site, to, source, facts),
        Target::Override(_) => add_asked_by(alloc, tables, site, to, source, facts),
        Target::Reflection(_) => add_asked_by(alloc, tables, site, to, source, facts),
    }
}

/// Adds what each source makes necessary at a site.
fn add_sources(
    alloc: Global,
    tables: &FlowTables<'_>,
    site: &Site,
    sources: &[Source],
    facts: &mut Facts,
) -> Result<(), NoMemory>
    requires { AreFlowTables tables.now }
    ensures { OnOk result (facts.new ≡ facts.old ++ flat_map (source_marks (recs_in tables.now) site.now site.now.target) sources.now) }
{
    for source in sources {
        add_source(alloc, tables, site, site.target, source, facts)?;
    }
    Ok(())
}

/// Adds what a site makes necessary.
#[tactic(auto, unfolding(rules::specs::mark_rules::FlowMarks::site_marks))]
fn add_site(
    alloc: Global,
    tables: &FlowTables<'_>,
    site: &Site,
    facts: &mut Facts,
) -> Result<(), NoMemory>
    requires { AreFlowTables tables.now }
    ensures { OnOk result (facts.new ≡ facts.old ++ site_marks (recs_in tables.now) site.now) }
{
    add_sources(alloc, tables, site, site.sources.as_slice(), facts)
}

/// Adds what sites make necessary.
fn add_sites(
    alloc: Global,
    tables: &FlowTables<'_>,
    sites: &[Site],
    facts: &mut Facts,
) -> Result<(), NoMemory>
    requires { AreFlowTables tables.now }
    ensures { OnOk result (facts.new ≡ facts.old ++ flat_map (site_marks (recs_in tables.now)) sites.now) }
{
    for site in sites {
        add_site(alloc, tables, site, facts)?;
    }
    Ok(())
}

/// Adds what the flow of values in a marked item makes necessary: the members that are asked for of types that are known there, and
/// the types that known names find.
#[tactic(auto, unfolding(rules::specs::mark_rules::FlowMarks::flow_marks))]
pub fn add_flow_marks(
    alloc: Global,
    tables: &FlowTables<'_>,
    item: Item,
    facts: &mut Facts,
) -> Result<(), NoMemory>
    requires { AreFlowTables tables.now }
    ensures { OnOk result (facts.new ≡ facts.old ++ flow_marks (recs_in tables.now) item) }
{
    let sites = item_sites(alloc, tables, item)?;
    add_sites(alloc, tables, sites.as_slice(), facts)
}
