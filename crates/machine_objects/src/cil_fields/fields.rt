//! `ldfld`, `ldflda` and `stfld`, with the operands off the evaluation stack.

ghost use Rattle.std.specs.Prelude.{◌≡◌, List, [], ◌∷◌, IfOk};
ghost use Rattle.il_base.specs.declared.cil_values.value.Value.{Value};
ghost use Rattle.il_base.specs.declared.cil_values.path.Path.{Path};
ghost use Rattle.il_base.specs.declared.cil_values.value.Value.TheVariants as value;
ghost use Rattle.rules.specs.step_rules.Words.{given, goes};
ghost use Rattle.rules.specs.step_rules.Stores.{fits};
ghost use Rattle.rules.specs.step_rules.Places.{put_at};
ghost use Rattle.rules.specs.step_rules.Fields.{address_field, address_with, load_field, load_part, load_with, store_field, store_with};
ghost use Rattle.machine_words.specs.cil_words.Steps.{here_by, next_of};
ghost use Rattle.machine_words.specs.cil_closing.Callees.{accessed_by};
ghost use Rattle.machine_numbers.specs.cil_pointers.Reaching.{with_stack};
ghost use Rattle.machine_objects.specs.cil_fields.Placing.{load_through};
ghost use Rattle.machine_objects.specs.cil_fields.Structs.{parts_by};

use crate::cil_fields::cells::struct_cell;
use crate::cil_fields::flags::is_static;
use crate::cil_fields::parts::{Parts, parts_of};
use crate::cil_fields::places::reach_field;
use crate::cil_fields::static_fields::{address_static, load_static, store_static};
use il_base::NoMemory;
use il_base::cil_values::{Instruction, Path, State, Value};
use il_base::core_table::CoreName;
use machine_frames::cil_raising::raise;
use machine_numbers::cil_pointers::{Reached, discard, gives, puts_at};
use machine_words::cil_closing::Accessed;
use machine_words::cil_queries::Answers;
use machine_words::cil_stores::fits;
use machine_words::cil_words::{Body, StepOut, stopped, stuck};
use std::alloc::Global;

/// A field of a struct that is off the stack.
fn load_part<Q: Answers>(
    alloc: Global,
    q: &Q,
    body: &Body,
    i: &Instruction,
    a: &Accessed,
    p: &Parts,
    st: &mut State,
) -> Result<StepOut, NoMemory>
    ensures { IfOk result (λ out. (vs : List Value) → next_of out st.new [] ≡ load_part (Q.queries q.now) (here_by body.now st.old) i.now (accessed_by a.now) st.old.top.stack (with_stack vs st.old) (parts_by p.now)) }
{
    if !p.of.is_same(&a.owner) {
        return Ok(stuck(st));
    }
    let Some(c) = struct_cell(alloc, q, &a.owner, a.id)? else {
        return Ok(stopped(st));
    };
    let Some(v) = p.cells.get(c.number as usize) else {
        return Ok(stopped(st));
    };
    let v = v.copy(alloc)?;
    gives(body, i, v, st)
}

/// A field of an object, or through a pointer.
fn load_through<Q: Answers>(
    alloc: Global,
    q: &Q,
    body: &Body,
    i: &Instruction,
    a: &Accessed,
    r: Value,
    st: &mut State,
) -> Result<StepOut, NoMemory>
    ensures { IfOk result (λ out. next_of out st.new [] ≡ load_through (Q.queries q.now) (here_by body.now st.old) i.now (accessed_by a.now) r st.old.top.stack (with_stack (r ∷ st.old.top.stack) st.old)) }
{
    let found = reach_field(alloc, q, a, &r, st)?;
    match found {
        Reached::At(p, v) => {
            discard(p);
            discard(r);
            let out = gives(body, i, v, st)?;
            Ok(out)
        }
        Reached::Null => {
            st.top.stack.push(r)?;
            let raised = raise(alloc, q, CoreName::NullReferenceException, st)?;
            Ok(raised)
        }
        Reached::Gone => {
            discard(r);
            Ok(stopped(st))
        }
        Reached::Refused => {
            discard(r);
            Ok(stuck(st))
        }
    }
}

/// `ldfld` of an instance field.
fn load_field<Q: Answers>(
    alloc: Global,
    q: &Q,
    body: &Body,
    i: &Instruction,
    a: &Accessed,
    r: Value,
    st: &mut State,
) -> Result<StepOut, NoMemory>
    ensures { IfOk result (λ out. next_of out st.new [] ≡ load_field (Q.queries q.now) (here_by body.now st.old) i.now (accessed_by a.now) r st.old.top.stack (with_stack (r ∷ st.old.top.stack) st.old)) }
{
    match parts_of(&r) {
        Some(p) => {
            let out = load_part(alloc, q, body, i, a, &p, st)?;
            discard(r);
            Ok(out)
        }
        None => {
            let other = load_through(alloc, q, body, i, a, r, st)?;
            Ok(other)
        }
    }
}

/// `ldfld` (III.4.10). Of a static field it drops its object, of any kind.
pub(crate) fn load_with<Q: Answers>(
    alloc: Global,
    q: &Q,
    body: &Body,
    i: &Instruction,
    a: &Accessed,
    r: Value,
    st: &mut State,
) -> Result<StepOut, NoMemory>
    ensures { IfOk result (λ out. next_of out st.new [] ≡ load_with (Q.queries q.now) (here_by body.now st.old) i.now (accessed_by a.now) r st.old.top.stack (with_stack (r ∷ st.old.top.stack) st.old)) }
{
    if is_static(a) {
        discard(r);
        let out = load_static(alloc, q, body, i, a, st)?;
        Ok(out)
    } else {
        let other = load_field(alloc, q, body, i, a, r, st)?;
        Ok(other)
    }
}

/// `ldflda` of an instance field.
fn address_field<Q: Answers>(
    alloc: Global,
    q: &Q,
    body: &Body,
    i: &Instruction,
    a: &Accessed,
    r: Value,
    st: &mut State,
) -> Result<StepOut, NoMemory>
    ensures { IfOk result (λ out. next_of out st.new [] ≡ address_field (Q.queries q.now) (here_by body.now st.old) i.now (accessed_by a.now) r st.old.top.stack (with_stack (r ∷ st.old.top.stack) st.old)) }
{
    let found = reach_field(alloc, q, a, &r, st)?;
    match found {
        Reached::At(p, v) => {
            discard(v);
            discard(r);
            let pointer = Value::pointer(alloc, p)?;
            let out = gives(body, i, pointer, st)?;
            Ok(out)
        }
        Reached::Null => {
            st.top.stack.push(r)?;
            let raised = raise(alloc, q, CoreName::NullReferenceException, st)?;
            Ok(raised)
        }
        Reached::Gone => {
            discard(r);
            Ok(stopped(st))
        }
        Reached::Refused => {
            discard(r);
            Ok(stuck(st))
        }
    }
}

/// `ldflda` (III.4.11). Of a static field it drops its object, of any kind.
pub(crate) fn address_with<Q: Answers>(
    alloc: Global,
    q: &Q,
    body: &Body,
    i: &Instruction,
    a: &Accessed,
    r: Value,
    st: &mut State,
) -> Result<StepOut, NoMemory>
    ensures { IfOk result (λ out. next_of out st.new [] ≡ address_with (Q.queries q.now) (here_by body.now st.old) i.now (accessed_by a.now) r st.old.top.stack (with_stack (r ∷ st.old.top.stack) st.old)) }
{
    if is_static(a) {
        discard(r);
        let out = address_static(alloc, q, body, i, a, st)?;
        Ok(out)
    } else {
        let other = address_field(alloc, q, body, i, a, r, st)?;
        Ok(other)
    }
}

/// Puts a value into a place, if it fits.
fn keeps<Q: Answers>(
    alloc: Global,
    q: &Q,
    body: &Body,
    i: &Instruction,
    p: &Path,
    v: Value,
    st: &mut State,
) -> Result<StepOut, NoMemory>
    ensures { IfOk result (λ out. (vs : List Value) → next_of out st.new [] ≡ given (fits (Q.queries q.now) p.now.of v) (with_stack vs st.old) (λ w. put_at (Q.queries q.now) p.now w (with_stack vs st.old) (goes (here_by body.now st.old) i.now st.old.top.stack))) }
{
    match fits(alloc, q, &p.of, v)? {
        None => Ok(stuck(st)),
        Some(w) => puts_at(alloc, q, body, i, p, w, st),
    }
}

/// `stfld` of an instance field: the object whole, then the value.
fn store_field<Q: Answers>(
    alloc: Global,
    q: &Q,
    body: &Body,
    i: &Instruction,
    a: &Accessed,
    r: Value,
    v: Value,
    st: &mut State,
) -> Result<StepOut, NoMemory>
    ensures { IfOk result (λ out. next_of out st.new [] ≡ store_field (Q.queries q.now) (here_by body.now st.old) i.now (accessed_by a.now) r v st.old.top.stack (with_stack (v ∷ r ∷ st.old.top.stack) st.old)) }
{
    let found = reach_field(alloc, q, a, &r, st)?;
    match found {
        Reached::At(p, old) => {
            discard(old);
            discard(r);
            let out = keeps(alloc, q, body, i, &p, v, st)?;
            discard(p);
            Ok(out)
        }
        Reached::Null => {
            st.top.stack.push(r)?;
            st.top.stack.push(v)?;
            let raised = raise(alloc, q, CoreName::NullReferenceException, st)?;
            Ok(raised)
        }
        Reached::Gone => {
            discard(r);
            discard(v);
            Ok(stopped(st))
        }
        Reached::Refused => {
            discard(r);
            discard(v);
            Ok(stuck(st))
        }
    }
}

/// `stfld` (III.4.28). Of a static field it drops its object, of any kind.
pub(crate) fn store_with<Q: Answers>(
    alloc: Global,
    q: &Q,
    body: &Body,
    i: &Instruction,
    a: &Accessed,
    r: Value,
    v: Value,
    st: &mut State,
) -> Result<StepOut, NoMemory>
    ensures { IfOk result (λ out. next_of out st.new [] ≡ store_with (Q.queries q.now) (here_by body.now st.old) i.now (accessed_by a.now) r v st.old.top.stack (with_stack (v ∷ r ∷ st.old.top.stack) st.old)) }
{
    if is_static(a) {
        discard(r);
        let out = store_static(alloc, q, body, i, a, v, st)?;
        Ok(out)
    } else {
        let other = store_field(alloc, q, body, i, a, r, v, st)?;
        Ok(other)
    }
}
