//! What the operands of instructions name.

ghost use Rattle.std.specs.Prelude.{◌≡◌, ◌++◌, Some, slice_get, OnOk};
ghost use Rattle.std.specs.Option.{option_copied};
ghost use Rattle.rules.specs.mark_rules.Bodies.{token_parts, instruction_parts};
ghost use Rattle.mark_parts.specs.mark_tables.Assemblies.{all_of};
ghost use Rattle.site_kinds.specs.Known.{IsAnnotated};
ghost use Rattle.rules.specs.site_rules.Values.{place_at};
ghost use Rattle.rules.specs.site_rules.Arguments.{sites_of_parts};
ghost use Rattle.requirements.specs.generic_sites.Operands.{method_if, field_if, type_if, any_sites, sites_by};

use crate::generic_sites::arguments::{Within, put_type};
use crate::generic_sites::links::{field_named, method_named, type_named};
use crate::generic_sites::named::{put_field, put_method};
use il_base::world_model::{AsmRec, FieldUse, MethodUse, TypeExpr};
use il_base::{Form, Instr, NoMemory, Operand, Place, Seq, TypeId};
use mark_parts::bodies::{is_field_token, is_method_token};
use mark_parts::forms::{Names, names_of};
use rules::site_rules::Site;
use site_kinds::known::Annotated;
use std::alloc::Global;

/// A row whose code has operands.
#[derive(Clone, Copy)]
pub struct Row<'a> {
    /// Its assembly, from 0.
    pub asm: u32,
    pub rec: &'a AsmRec,
    /// The type whose generic parameters are open there.
    pub owner: Option<TypeId>,
    pub token: u32,
}

impl Row<'_> {
    /// The instruction at an IL offset.
    fn at(&self, offset: u32) -> Within
        ensures { result ≡ record { owner = self.now.owner; place = place_at self.now.asm self.now.token offset } }
    {
        Within {
            owner: self.owner,
            place: Place {
                asm: self.asm,
                token: self.token,
                offset,
            },
        }
    }
}

#[tactic(auto, using(crate::proofs::lemmas::generic_sites::Lists::none_more))]
fn put_method_if(
    alloc: Global,
    annotated: &Annotated<'_>,
    within: Within,
    used: Option<&MethodUse>,
    sites: &mut Seq<Site>,
) -> Result<(), NoMemory>
    requires { IsAnnotated annotated.now }
    ensures { OnOk result (sites.new ≡ sites.old ++ method_if (all_of annotated.now.marker.now) within.owner within.place (option_copied used.entry)) }
{
    match used {
        None => Ok(()),
        Some(used) => put_method(alloc, annotated, within, used, sites),
    }
}

#[tactic(auto, using(crate::proofs::lemmas::generic_sites::Lists::none_more))]
fn put_field_if(
    alloc: Global,
    annotated: &Annotated<'_>,
    within: Within,
    used: Option<&FieldUse>,
    sites: &mut Seq<Site>,
) -> Result<(), NoMemory>
    requires { IsAnnotated annotated.now }
    ensures { OnOk result (sites.new ≡ sites.old ++ field_if (all_of annotated.now.marker.now) within.owner within.place (option_copied used.entry)) }
{
    match used {
        None => Ok(()),
        Some(used) => put_field(alloc, annotated, within, used, sites),
    }
}

#[tactic(auto, using(crate::proofs::lemmas::generic_sites::Lists::none_more))]
fn put_type_if(
    alloc: Global,
    annotated: &Annotated<'_>,
    within: Within,
    e: Option<&TypeExpr>,
    sites: &mut Seq<Site>,
) -> Result<(), NoMemory>
    requires { IsAnnotated annotated.now }
    ensures { OnOk result (sites.new ≡ sites.old ++ type_if (all_of annotated.now.marker.now) within.owner within.place (option_copied e.entry)) }
{
    match e {
        None => Ok(()),
        Some(e) => put_type(alloc, annotated, within, e, sites),
    }
}

/// Puts the sites of what the operand of `ldtoken` (III.4.17) names at the end.
fn put_any(
    alloc: Global,
    annotated: &Annotated<'_>,
    row: &Row<'_>,
    within: Within,
    token: u32,
    sites: &mut Seq<Site>,
) -> Result<(), NoMemory>
    requires annotated { IsAnnotated annotated.now }
    requires here { slice_get (all_of annotated.now.marker.now) row.now.asm ≡ Some row.now.rec.now }
    ensures { OnOk result (sites.new ≡ sites.old ++ any_sites (all_of annotated.now.marker.now) row.now.asm row.now.rec.now within.owner within.place token) }
{
    let marker = annotated.marker;
    let world = marker.tables.world;
    if is_field_token(row.rec, token) {
        return put_field_if(
            alloc,
            annotated,
            within,
            field_named(world, row.asm, row.rec, token),
            sites,
        );
    }
    if is_method_token(token) {
        return put_method_if(
            alloc,
            annotated,
            within,
            method_named(world, row.asm, row.rec, token),
            sites,
        );
    }
    put_type_if(
        alloc,
        annotated,
        within,
        type_named(world, row.asm, row.rec, token),
        sites,
    )
}

/// Puts the sites of what a token of an operand names at the end.
#[tactic(auto, unfolding(crate::specs::generic_sites::Operands::sites_by), using(crate::proofs::lemmas::generic_sites::Lists::none_more))]
fn put_token(
    alloc: Global,
    annotated: &Annotated<'_>,
    row: &Row<'_>,
    within: Within,
    names: Names,
    token: u32,
    sites: &mut Seq<Site>,
) -> Result<(), NoMemory>
    requires annotated { IsAnnotated annotated.now }
    requires here { slice_get (all_of annotated.now.marker.now) row.now.asm ≡ Some row.now.rec.now }
    ensures { OnOk result (sites.new ≡ sites.old ++ sites_by (all_of annotated.now.marker.now) row.now.asm row.now.rec.now within.owner within.place names token) }
{
    let marker = annotated.marker;
    let world = marker.tables.world;
    match names {
        Names::Method => {
            put_method_if(
                alloc,
                annotated,
                within,
                method_named(world, row.asm, row.rec, token),
                sites,
            )
        }
        Names::Field => {
            put_field_if(
                alloc,
                annotated,
                within,
                field_named(world, row.asm, row.rec, token),
                sites,
            )
        }
        Names::Any => put_any(alloc, annotated, row, within, token, sites),
        Names::Text => Ok(()),
        Names::Type => {
            put_type_if(
                alloc,
                annotated,
                within,
                type_named(world, row.asm, row.rec, token),
                sites,
            )
        }
    }
}

/// Puts the sites of what the token of an instruction names at the end, by the instruction's form.
fn put_form_token(
    alloc: Global,
    annotated: &Annotated<'_>,
    row: &Row<'_>,
    at: u32,
    form: Form,
    token: u32,
    sites: &mut Seq<Site>,
) -> Result<(), NoMemory>
    requires annotated { IsAnnotated annotated.now }
    requires here { slice_get (all_of annotated.now.marker.now) row.now.asm ≡ Some row.now.rec.now }
    ensures { OnOk result (sites.new ≡ sites.old ++ sites_of_parts (all_of annotated.now.marker.now) row.now.asm row.now.owner (token_parts (all_of annotated.now.marker.now) row.now.asm row.now.rec.now row.now.token at form token)) }
{
    let within = row.at(at);
    let names = names_of(form);
    put_token(alloc, annotated, row, within, names, token, sites)?;
    Ok(())
}

/// Puts the sites of what an instruction names at the end.
#[tactic(auto, unfolding(rules::specs::site_rules::Arguments::sites_of_parts), using(crate::proofs::lemmas::generic_sites::Lists::none_more))]
pub fn put_operand(
    alloc: Global,
    annotated: &Annotated<'_>,
    row: &Row<'_>,
    instr: &Instr,
    sites: &mut Seq<Site>,
) -> Result<(), NoMemory>
    requires annotated { IsAnnotated annotated.now }
    requires here { slice_get (all_of annotated.now.marker.now) row.now.asm ≡ Some row.now.rec.now }
    ensures { OnOk result (sites.new ≡ sites.old ++ sites_of_parts (all_of annotated.now.marker.now) row.now.asm row.now.owner (instruction_parts (all_of annotated.now.marker.now) row.now.asm row.now.rec.now row.now.token instr.now)) }
{
    match &instr.operand {
        Operand::Token(token) => {
            put_form_token(alloc, annotated, row, instr.at, instr.form, *token, sites)
        }
        Operand::None => Ok(()),
        Operand::Number(_) => Ok(()),
        Operand::Slot(_) => Ok(()),
        Operand::Target(_) => Ok(()),
        Operand::Targets(_) => Ok(()),
    }
}
