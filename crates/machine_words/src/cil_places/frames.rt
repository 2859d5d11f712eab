//! Frames by their numbers.

ghost use Rattle.std.specs.Prelude.{◌≡◌, map, IfOk};
ghost use Rattle.std.specs.Option.{option_copied};
ghost use Rattle.rules.specs.step_rules.Places.{change_frame, frame_with, with_frame, has_ended};
ghost use Rattle.machine_words.specs.cil_places.Parts.{set_slot};

use crate::cil_places::structs::put;
use il_base::NoMemory;
use il_base::cil_values::{Frame, Path, Root, Stack, State, Value};
use std::alloc::Global;
use std::mem;

/// A slot of a frame, from 0.
#[derive(Clone, Copy, Debug, PartialEq, Eq)]
pub(crate) enum Slot {
    Arg(u32),
    Local(u32),
}

/// The frame with a number, if it hasn't ended.
#[tactic(auto, unfolding(rules::specs::step_rules::Places::frame_with))]
pub fn frame_with(st: &State, number: u64) -> Option<&Frame>
    ensures { option_copied result ≡ frame_with number st.now }
{
    if st.top.number == number {
        return Some(&st.top);
    }
    let frames = st.below.as_slice();
    for i in 0..frames.len() {
        let f = &frames[frames.len() - 1 - i];
        if f.number == number {
            return Some(f);
        }
    }
    None
}

/// Whether a pointer leads into a frame that has ended.
#[tactic(auto, unfolding(rules::specs::step_rules::Places::has_ended))]
pub fn has_ended(st: &State, p: &Path) -> bool
    ensures { result ≡ has_ended st.now p.now }
{
    match &p.root {
        Root::Arg(number, _) => frame_with(st, *number).is_none(),
        Root::Local(number, _) => frame_with(st, *number).is_none(),
        Root::Boxed(_) => false,
        Root::Element(_, _) => false,
        Root::Field(_, _) => false,
        Root::Static(_, _) => false,
    }
}

/// Puts a value into a slot of a frame, if this is the frame with the number.
fn change_frame(
    alloc: Global,
    number: u64,
    slot: Slot,
    v: &Value,
    f: &mut Frame,
) -> Result<(), NoMemory>
    ensures { IfOk result (λ done. f.new ≡ change_frame number (set_slot slot v.now) f.old) }
{
    if f.number != number {
        return Ok(());
    }
    let v = v.copy(alloc)?;
    match slot {
        Slot::Arg(at) => put(&mut f.args, at as usize, v),
        Slot::Local(at) => put(&mut f.locals, at as usize, v),
    }
    Ok(())
}

/// Puts a value into a slot of each of the frames with a number.
fn change_frames(
    alloc: Global,
    number: u64,
    slot: Slot,
    v: &Value,
    frames: &mut Vec<Frame>,
) -> Result<(), NoMemory>
    ensures { IfOk result (λ done. frames.new.items ≡ map (change_frame number (set_slot slot v.now)) frames.old.items) }
{
    for i in 0..frames.len() {
        change_frame(alloc, number, slot, v, &mut frames[i])?;
    }
    Ok(())
}

/// Puts a value into a slot of the frame with a number. Nothing is changed where there is no such frame or slot.
#[tactic(auto, unfolding(rules::specs::step_rules::Places::with_frame))]
pub(crate) fn put_slot(
    alloc: Global,
    st: &mut State,
    number: u64,
    slot: Slot,
    v: &Value,
) -> Result<(), NoMemory>
    ensures { IfOk result (λ done. st.new ≡ with_frame number (set_slot slot v.now) st.old) }
{
    change_frame(alloc, number, slot, v, &mut st.top)?;
    let mut frames = mem::replace(&mut st.below, Stack::new(alloc)).into_vec();
    change_frames(alloc, number, slot, v, &mut frames)?;
    st.below = Stack::from_vec(frames);
    Ok(())
}
