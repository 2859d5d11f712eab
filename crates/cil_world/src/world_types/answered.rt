//! What virtual calls find for objects of types without arguments, found once.

ghost use Rattle.std.specs.Prelude.{◌≡◌, List, None, IfOk, IfSome, OnOk};
ghost use Rattle.il_base.specs.declared.world_model.record.AsmRec.{AsmRec as Records};
ghost use Rattle.type_tables.specs.Tables.{IsTables};
ghost use Rattle.virtual_calls.specs.Slots.{AreSlots};
ghost use Rattle.rules.specs.view_rules.Answers.{answers_query};
ghost use Rattle.rules.specs.type_rules.Subtypes.{above, element_of};
ghost use Rattle.cil_world.specs.world_types.Answered.{AreAnswers, AreLed, IsLed, type_at};

use crate::world_types::owners::with_owner;
use il_base::world_model::{AsmRec, MethodUse, TypeDefRow, TypeExpr};
use il_base::{MethodId, NoMemory, TypeId, has_type_flag, type_flags};
use rules::link_rules::RowAt;
use std::alloc::Global;
use type_tables::member_search::bases::definition;
use type_tables::member_search::counted::row_of;
use type_tables::member_search::linked::assembly_at;
use type_tables::methods::method_id;
use type_tables::subtypes::rounds::above;
use type_tables::tables::Tables;
use virtual_calls::dispatch::dispatch;
use virtual_calls::flags::is_virtual;
use virtual_calls::slots::Slots;

/// How many answers are kept; further ones are found each time.
const MOST_ANSWERS: usize = 65_536;

/// How many bases, interfaces and methods are looked at for all types together, so that a file with long chains of bases costs no
/// more. Nothing is kept of further types.
const MOST_LOOKED_AT: usize = 1_048_576;

/// What a virtual call finds for objects of a type without arguments.
#[derive(Drop)]
pub struct Answer {
    /// The type of the objects, by its place in the world.
    pub ty: u32,
    /// The closed owner of the called method.
    pub owner: TypeExpr,
    /// The called method, by its place in the world.
    pub method: u32,
    pub found: Option<MethodUse>,
}

/// What steps up from a type without arguments lead to, itself first.
#[derive(Drop)]
pub struct Led {
    /// The type, by its place in the world.
    pub ty: u32,
    pub types: Vec<TypeExpr>,
}

/// The answers that are kept, those for one type beside one another.
#[derive(Drop)]
pub struct Answered {
    pub answers: Vec<Answer>,
    /// Of each type, by its place in the world, where its answers begin.
    pub firsts: Vec<usize>,
    /// Of each type of which there are objects, by its place in the world, what it can stand for.
    pub led: Vec<Option<Led>>,
}

/// The method that a virtual call runs for an object of a type, with the closed type in which it was found (II.12.2).
#[tactic(auto, unfolding(rules::specs::view_rules::Answers::answers_query))]
pub(crate) fn find_answer(
    alloc: Global,
    tables: &Tables<'_>,
    slots: &Slots,
    ty: &TypeExpr,
    owner: &TypeExpr,
    method: u32,
) -> Result<Option<MethodUse>, NoMemory>
    requires tables { IsTables tables.now }
    requires slots { AreSlots tables.now.world.now.recs slots.now }
    ensures { IfOk result (λ found. found ≡ answers_query tables.now.world.now.recs ty.now owner.now method) }
{
    match dispatch(alloc, tables, slots, ty, owner, MethodId(method)) {
        Ok(Some(found)) => with_owner(alloc, tables, ty, found),
        Ok(None) => Ok(None),
        Err(error) => Err(error),
    }
}

/// Adds the answer for a method, unless there are many.
fn add_answer(
    alloc: Global,
    tables: &Tables<'_>,
    slots: &Slots,
    ty: u32,
    owner: &TypeExpr,
    method: u32,
    answers: &mut Vec<Answer>,
) -> Result<(), NoMemory>
    requires tables { IsTables tables.now }
    requires slots { AreSlots tables.now.world.now.recs slots.now }
    requires are { AreAnswers tables.now.world.now.recs answers.old.items }
    ensures { OnOk result (AreAnswers tables.now.world.now.recs answers.new.items) }
{
    if answers.len() >= MOST_ANSWERS {
        return Ok(());
    }
    let of = TypeExpr::Def(TypeId(ty));
    let found = find_answer(alloc, tables, slots, &of, owner, method)?;
    let owner = owner.copy(alloc)?;
    answers.push(Answer {
        ty,
        owner,
        method,
        found,
    })?;
    Ok(())
}

/// Adds the answer for a method of an owner, by its row from 0, where it is virtual.
fn add_method(
    alloc: Global,
    tables: &Tables<'_>,
    slots: &Slots,
    ty: u32,
    owner: &TypeExpr,
    at: RowAt,
    answers: &mut Vec<Answer>,
) -> Result<(), NoMemory>
    requires tables { IsTables tables.now }
    requires slots { AreSlots tables.now.world.now.recs slots.now }
    requires are { AreAnswers tables.now.world.now.recs answers.old.items }
    ensures { OnOk result (AreAnswers tables.now.world.now.recs answers.new.items) }
{
    let all = tables.world.recs.as_slice();
    let Some(rec) = assembly_at(all, at.asm) else {
        return Ok(());
    };
    let Some(m) = rec.method_def.get(at.row as usize) else {
        return Ok(());
    };
    if !is_virtual(m) {
        return Ok(());
    }
    let method = method_id(all, at)?;
    add_answer(alloc, tables, slots, ty, owner, method.0, answers)
}

/// Adds the answers for the virtual methods in some rows of an owner, from 1.
fn add_methods(
    alloc: Global,
    tables: &Tables<'_>,
    slots: &Slots,
    ty: u32,
    owner: &TypeExpr,
    asm: u32,
    first: u32,
    end: u32,
    answers: &mut Vec<Answer>,
) -> Result<(), NoMemory>
    requires tables { IsTables tables.now }
    requires slots { AreSlots tables.now.world.now.recs slots.now }
    requires are { AreAnswers tables.now.world.now.recs answers.old.items }
    ensures { OnOk result (AreAnswers tables.now.world.now.recs answers.new.items) }
{
    for n in first..end {
        let row = n.saturating_sub(1);
        add_method(alloc, tables, slots, ty, owner, RowAt { asm, row }, answers)?;
    }
    Ok(())
}

/// Adds the answers for the virtual methods of an owner. `room` is how many methods may still be looked at, and becomes less.
fn add_owner(
    alloc: Global,
    tables: &Tables<'_>,
    slots: &Slots,
    ty: u32,
    owner: &TypeExpr,
    room: &mut usize,
    answers: &mut Vec<Answer>,
) -> Result<(), NoMemory>
    requires tables { IsTables tables.now }
    requires slots { AreSlots tables.now.world.now.recs slots.now }
    requires are { AreAnswers tables.now.world.now.recs answers.old.items }
    ensures { OnOk result (AreAnswers tables.now.world.now.recs answers.new.items) }
{
    let all = tables.world.recs.as_slice();
    let at = match definition(all, owner) {
        Ok(Some(at)) => at,
        Ok(None) => return Ok(()),
        Err(error) => return Err(error),
    };
    let Some(rec) = assembly_at(all, at.asm) else {
        return Ok(());
    };
    let Some(t) = rec.type_def.get(at.row as usize) else {
        return Ok(());
    };
    let first = t.method_list_first;
    let end = t.method_list_end;
    *room = room.saturating_sub(end.saturating_sub(first) as usize);
    if *room == 0 {
        return Ok(());
    }
    add_methods(alloc, tables, slots, ty, owner, at.asm, first, end, answers)
}

/// Adds the answers for the virtual methods of some owners.
fn add_owners(
    alloc: Global,
    tables: &Tables<'_>,
    slots: &Slots,
    ty: u32,
    owners: &[TypeExpr],
    room: &mut usize,
    answers: &mut Vec<Answer>,
) -> Result<(), NoMemory>
    requires tables { IsTables tables.now }
    requires slots { AreSlots tables.now.world.now.recs slots.now }
    requires are { AreAnswers tables.now.world.now.recs answers.old.items }
    ensures { OnOk result (AreAnswers tables.now.world.now.recs answers.new.items) }
{
    for owner in owners {
        add_owner(alloc, tables, slots, ty, owner, room, answers)?;
    }
    Ok(())
}

/// Whether there are objects of exactly a type (II.10.1.4).
fn has_objects(t: &TypeDefRow) -> bool {
    !has_type_flag(t.flags, type_flags::ABSTRACT) && !has_type_flag(t.flags, type_flags::INTERFACE)
}

/// What steps up from a type lead to, where there are objects of it. `room` is how many bases and interfaces may still be kept, and
/// becomes less.
fn led_from(
    alloc: Global,
    tables: &Tables<'_>,
    ty: u32,
    t: &TypeDefRow,
    room: &mut usize,
) -> Result<Option<Led>, NoMemory>
    requires { IsTables tables.now }
    ensures { IfOk result (λ led. IfSome led (IsLed tables.now.world.now.recs)) }
{
    if *room == 0 || !has_objects(t) {
        return Ok(None);
    }
    let of = TypeExpr::Def(TypeId(ty));
    let types = above(alloc, tables, &of)?;
    *room = room.saturating_sub(types.len());
    Ok(Some(Led { ty, types }))
}

/// Adds the answers for objects of a type, by what it can stand for.
fn add_type(
    alloc: Global,
    tables: &Tables<'_>,
    slots: &Slots,
    ty: u32,
    led: &Option<Led>,
    room: &mut usize,
    answers: &mut Vec<Answer>,
) -> Result<(), NoMemory>
    requires tables { IsTables tables.now }
    requires slots { AreSlots tables.now.world.now.recs slots.now }
    requires are { AreAnswers tables.now.world.now.recs answers.old.items }
    ensures { OnOk result (AreAnswers tables.now.world.now.recs answers.new.items) }
{
    match led {
        None => Ok(()),
        Some(led) => add_owners(
            alloc,
            tables,
            slots,
            ty,
            led.types.as_slice(),
            room,
            answers,
        ),
    }
}

/// Adds the answers for objects of the types of an assembly.
fn add_types(
    alloc: Global,
    tables: &Tables<'_>,
    slots: &Slots,
    types: &[TypeDefRow],
    room: &mut usize,
    answered: &mut Answered,
) -> Result<(), NoMemory>
    requires tables { IsTables tables.now }
    requires slots { AreSlots tables.now.world.now.recs slots.now }
    requires are { AreAnswers tables.now.world.now.recs answered.old.answers.items }
    requires led { AreLed tables.now.world.now.recs answered.old.led.items }
    ensures are { OnOk result (AreAnswers tables.now.world.now.recs answered.new.answers.items) }
    ensures led { OnOk result (AreLed tables.now.world.now.recs answered.new.led.items) }
{
    for t in types {
        let ty = row_of(answered.firsts.len())?;
        answered.firsts.push(answered.answers.len())?;
        let led = led_from(alloc, tables, ty, t, room)?;
        add_type(alloc, tables, slots, ty, &led, room, &mut answered.answers)?;
        answered.led.push(led)?;
    }
    Ok(())
}

/// Adds the answers for objects of the types of some assemblies.
fn add_all(
    alloc: Global,
    tables: &Tables<'_>,
    slots: &Slots,
    all: &[AsmRec],
    room: &mut usize,
    answered: &mut Answered,
) -> Result<(), NoMemory>
    requires tables { IsTables tables.now }
    requires slots { AreSlots tables.now.world.now.recs slots.now }
    requires are { AreAnswers tables.now.world.now.recs answered.old.answers.items }
    requires led { AreLed tables.now.world.now.recs answered.old.led.items }
    ensures are { OnOk result (AreAnswers tables.now.world.now.recs answered.new.answers.items) }
    ensures led { OnOk result (AreLed tables.now.world.now.recs answered.new.led.items) }
{
    for rec in all {
        add_types(
            alloc,
            tables,
            slots,
            rec.type_def.as_slice(),
            room,
            answered,
        )?;
    }
    Ok(())
}

/// The assemblies but for the last, the core library.
fn inputs_of(all: &[AsmRec]) -> &[AsmRec] {
    match all {
        [] => &[],
        [inputs @ .., _] => inputs,
    }
}

/// What virtual calls find for objects of the types of the inputs.
pub(crate) fn all_answers(
    alloc: Global,
    tables: &Tables<'_>,
    slots: &Slots,
) -> Result<Answered, NoMemory>
    requires tables { IsTables tables.now }
    requires slots { AreSlots tables.now.world.now.recs slots.now }
    ensures are { IfOk result (λ made. AreAnswers tables.now.world.now.recs made.answers.items) }
    ensures led { IfOk result (λ made. AreLed tables.now.world.now.recs made.led.items) }
{
    let mut answered = Answered {
        answers: Vec::new(alloc),
        firsts: Vec::new(alloc),
        led: Vec::new(alloc),
    };
    let inputs = inputs_of(tables.world.recs.as_slice());
    let mut room = MOST_LOOKED_AT;
    add_all(alloc, tables, slots, inputs, &mut room, &mut answered)?;
    Ok(answered)
}

/// The answers between two places.
fn between(answers: &[Answer], from: usize, end: usize) -> &[Answer]
    ensures { (recs : List Records) → AreAnswers recs answers.now → AreAnswers recs result.now }
{
    if from <= end && end <= answers.len() {
        &answers[from..end]
    } else {
        &[]
    }
}

/// The answers for objects of a type, by its place in the world.
fn answers_of(answered: &Answered, ty: u32) -> &[Answer]
    ensures { (recs : List Records) → AreAnswers recs answered.now.answers.items → AreAnswers recs result.now }
{
    let answers = answered.answers.as_slice();
    let n = ty as usize;
    let Some(from) = answered.firsts.get(n) else {
        return &[];
    };
    match answered.firsts.get(n + 1) {
        Some(end) => between(answers, *from, *end),
        None => between(answers, *from, answers.len()),
    }
}

/// The answer for a method among some.
fn answer_in<'a>(
    answers: &'a [Answer],
    ty: u32,
    owner: &TypeExpr,
    method: u32,
) -> Option<&'a Option<MethodUse>>
    ensures { IfSome result (λ found. (recs : List Records) → AreAnswers recs answers.now → found.now ≡ answers_query recs (type_at ty) owner.now method) }
{
    for a in answers {
        if a.method == method && a.ty == ty && a.owner.is_same(owner) {
            return Some(&a.found);
        }
    }
    None
}

/// The kept answer for a method and objects of a type.
pub(crate) fn kept_answer<'a>(
    answered: &'a Answered,
    ty: &TypeExpr,
    owner: &TypeExpr,
    method: u32,
) -> Option<&'a Option<MethodUse>>
    ensures { IfSome result (λ found. (recs : List Records) → AreAnswers recs answered.now.answers.items → found.now ≡ answers_query recs ty.now owner.now method) }
{
    match ty {
        TypeExpr::Def(id) => {
            let found = answer_in(answers_of(answered, id.0), id.0, owner, method)?;
            Some(found)
        }
        TypeExpr::Prim(_) => None,
        TypeExpr::Inst(_, _) => None,
        TypeExpr::Array(_) => None,
        TypeExpr::ByRef(_) => None,
        TypeExpr::Var(_) => None,
        TypeExpr::MVar(_) => None,
        TypeExpr::Mod { .. } => None,
    }
}

/// A copy of what was found.
pub(crate) fn copied(
    alloc: Global,
    found: &Option<MethodUse>,
) -> Result<Option<MethodUse>, NoMemory>
    ensures { IfOk result (λ copy. copy ≡ found.now) }
{
    match found {
        None => Ok(None),
        Some(used) => {
            let owner = used.owner.copy(alloc)?;
            let args = TypeExpr::copy_all(alloc, used.args.as_slice())?;
            Ok(Some(MethodUse {
                method: used.method,
                owner,
                args,
            }))
        }
    }
}

/// What a type definition can stand for, by its place in the world.
fn led_at(led: &[Option<Led>], ty: u32) -> Option<&[TypeExpr]>
    ensures { IfSome result (λ types. (recs : List Records) → AreLed recs led.now → types.now ≡ above recs (type_at ty)) }
{
    match led.get(ty as usize) {
        Some(Some(found)) => {
            if found.ty != ty {
                return None;
            }
            Some(found.types.as_slice())
        }
        Some(None) => None,
        None => None,
    }
}

/// What a type can stand for, where that is kept.
#[tactic(auto, unfolding(rules::specs::type_rules::Subtypes::element_of))]
pub(crate) fn kept_led<'a>(answered: &'a Answered, ty: &TypeExpr) -> Option<&'a [TypeExpr]>
    ensures led { IfSome result (λ types. (recs : List Records) → AreLed recs answered.now.led.items → types.now ≡ above recs ty.now) }
    ensures plain { IfSome result (λ types. element_of ty.now ≡ None) }
{
    match ty {
        TypeExpr::Def(id) => {
            let types = led_at(answered.led.as_slice(), id.0)?;
            Some(types)
        }
        TypeExpr::Prim(_) => None,
        TypeExpr::Inst(_, _) => None,
        TypeExpr::Array(_) => None,
        TypeExpr::ByRef(_) => None,
        TypeExpr::Var(_) => None,
        TypeExpr::MVar(_) => None,
        TypeExpr::Mod { .. } => None,
    }
}
