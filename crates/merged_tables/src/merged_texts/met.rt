//! The texts that kept methods load.

ghost use Rattle.std.specs.Prelude.{◌≡◌, length, IfOk, OnOk};
ghost use Rattle.std.specs.List.{flat_map};
ghost use Rattle.rules.specs.file_layout.Interning.{added_all, each_once};
ghost use Rattle.rules.specs.mark_rules.Bodies.{body_of};
ghost use Rattle.rules.specs.merge_rules.Moved.{texts_named, texts_of_body, texts_of_method};
ghost use Rattle.merged_tables.specs.merged_texts.Texts.{AreLoads, AreAllLoads, ArePlaces, gathered, loaded, texts_in};

use crate::merged_texts::loads::{Loads, all_loads};
use crate::merged_texts::places::Places;
use il_base::world_model::{AsmRec, Known, MethodDefRow};
use il_base::{Form, Instr, NoMemory, Operand};
use rules::link_rules::RowAt;
use std::alloc::Global;
use type_tables::member_search::linked::assembly_at;

/// Puts the text that a token loads at the end.
#[tactic(auto, unfolding(rules::specs::file_layout::Interning::added_all))]
fn meet_token<'a>(
    rec: &'a AsmRec,
    loads: &Loads<'a>,
    token: u32,
    places: &mut Places<'a>,
) -> Result<(), NoMemory>
    requires loads { AreLoads rec.now loads.now }
    requires places { ArePlaces places.old }
    ensures texts { OnOk result (texts_in places.new ≡ added_all (texts_in places.old) (texts_named rec.now token)) }
    ensures places { OnOk result (ArePlaces places.new) }
{
    match loads.get(token) {
        None => Ok(()),
        Some(units) => places.meet(units),
    }
}

/// Puts the text that an instruction loads at the end.
#[tactic(auto, unfolding(rules::specs::file_layout::Interning::added_all))]
fn meet_instr<'a>(
    rec: &'a AsmRec,
    loads: &Loads<'a>,
    instr: &Instr,
    places: &mut Places<'a>,
) -> Result<(), NoMemory>
    requires loads { AreLoads rec.now loads.now }
    requires places { ArePlaces places.old }
    ensures texts { OnOk result (texts_in places.new ≡ added_all (texts_in places.old) (loaded rec.now instr.now)) }
    ensures places { OnOk result (ArePlaces places.new) }
{
    match instr.form {
        Form::LdStr => match &instr.operand {
            Operand::Token(token) => meet_token(rec, loads, *token, places),
            _ => Ok(()),
        },
        _ => Ok(()),
    }
}

/// Puts the texts that some code loads at the end.
#[tactic(auto, unfolding(crate::specs::merged_texts::Texts::gathered))]
fn meet_code<'a>(
    rec: &'a AsmRec,
    loads: &Loads<'a>,
    code: &[Instr],
    places: &mut Places<'a>,
) -> Result<(), NoMemory>
    requires loads { AreLoads rec.now loads.now }
    requires places { ArePlaces places.old }
    ensures texts { OnOk result (texts_in places.new ≡ gathered (loaded rec.now) (texts_in places.old) code.now) }
    ensures places { OnOk result (ArePlaces places.new) }
{
    for instr in code {
        meet_instr(rec, loads, instr, places)?;
    }
    Ok(())
}

/// Puts the texts that a method of an assembly loads at the end.
#[tactic(auto, using(crate::proofs::lemmas::merged_texts::Gathering::body_texts), unfolding(rules::specs::file_layout::Interning::added_all))]
fn meet_method<'a>(
    rec: &'a AsmRec,
    loads: &Loads<'a>,
    row: &MethodDefRow,
    places: &mut Places<'a>,
) -> Result<(), NoMemory>
    requires loads { AreLoads rec.now loads.now }
    requires places { ArePlaces places.old }
    ensures texts { OnOk result (texts_in places.new ≡ added_all (texts_in places.old) (flat_map (texts_of_body rec.now) (body_of row.now))) }
    ensures places { OnOk result (ArePlaces places.new) }
{
    match &row.body {
        None => Ok(()),
        Some(Known::Bad(_)) => Ok(()),
        Some(Known::Good(body)) => {
            meet_code(rec, loads, body.code.as_slice(), places)?;
            Ok(())
        }
    }
}

/// Puts the texts that the method in a row loads at the end.
#[tactic(auto, unfolding(rules::specs::file_layout::Interning::added_all))]
fn meet_row<'a>(
    recs: &'a [AsmRec],
    all: &[Loads<'a>],
    at: RowAt,
    places: &mut Places<'a>,
) -> Result<(), NoMemory>
    requires loads { AreAllLoads recs.now all.now }
    requires places { ArePlaces places.old }
    ensures texts { OnOk result (texts_in places.new ≡ added_all (texts_in places.old) (texts_of_method recs.now at)) }
    ensures places { OnOk result (ArePlaces places.new) }
{
    match assembly_at(recs, at.asm) {
        None => Ok(()),
        Some(rec) => match rec.method_def.get(at.row as usize) {
            None => Ok(()),
            Some(row) => meet_method(rec, &all[at.asm as usize], row, places),
        },
    }
}

/// Puts the texts that the methods in some rows load at the end.
#[tactic(auto, unfolding(crate::specs::merged_texts::Texts::gathered))]
fn meet_rows<'a>(
    recs: &'a [AsmRec],
    all: &[Loads<'a>],
    methods: &[RowAt],
    places: &mut Places<'a>,
) -> Result<(), NoMemory>
    requires loads { AreAllLoads recs.now all.now }
    requires places { ArePlaces places.old }
    ensures texts { OnOk result (texts_in places.new ≡ gathered (texts_of_method recs.now) (texts_in places.old) methods.now) }
    ensures places { OnOk result (ArePlaces places.new) }
{
    for at in methods {
        meet_row(recs, all, *at, places)?;
    }
    Ok(())
}

/// The texts that some methods load, each once, in the order of their bodies.
pub fn texts_met<'a>(
    alloc: Global,
    recs: &'a [AsmRec],
    methods: &[RowAt],
) -> Result<Places<'a>, NoMemory>
    ensures texts { IfOk result (λ places. texts_in places ≡ each_once (flat_map (texts_of_method recs.now) methods.now)) }
    ensures places { IfOk result ArePlaces }
{
    let all = all_loads(alloc, recs)?;
    let mut places = Places::new(alloc);
    meet_rows(recs, all.as_slice(), methods, &mut places)?;
    Ok(places)
}
