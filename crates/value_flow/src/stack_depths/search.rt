//! The search: each instruction that gets a depth waits until its steps are taken.

ghost use Rattle.std.specs.Prelude.{◌≡◌, ◌<◌, length, replicate, slice_get, false, IfOk, MatchOption, MatchBool};
ghost use Rattle.std.specs.List.{list_any};
ghost use Rattle.std.specs.Option.{option_copied};
ghost use Rattle.rules.specs.flow_rules.Depths.{depth_by, is_wrong_step, is_wrong_by, IsBad, AreDepths};

use il_base::{NoMemory, Seq};
use rules::flow_rules::{Exit, Step, Way};
use std::alloc::Global;

/// The depths so far.
#[derive(Drop)]
pub(crate) struct Search {
    /// One for each instruction; None where no walk was seen to reach it.
    pub(crate) found: Seq<Option<u32>>,
    /// The instructions whose steps are still to be taken.
    pub(crate) todo: Seq<u32>,
}

/// The depth where a step arrives, from an instruction that is reached at the depth `d`.
fn depth_by(way: Way, d: u32, e: &Exit) -> u64
    ensures { result ≡ depth_by way d e.now }
{
    match way {
        Way::Next => u64::from(d.saturating_sub(e.pops)) + u64::from(e.pushes),
        Way::Emptied => 0,
        Way::Caught => 1,
        Way::Unwound => 0,
    }
}

/// Whether a step leaves the instructions, or arrives at more than `most`.
fn is_wrong_step(count: usize, most: u32, d: u32, e: &Exit, s: Step) -> bool
    ensures { result ≡ is_wrong_step count most d e.now s }
{
    !((s.to as usize) < count) || !(depth_by(s.way, d, e) <= u64::from(most))
}

fn has_wrong_step(count: usize, most: u32, d: u32, e: &Exit) -> bool
    ensures { result ≡ list_any (is_wrong_step count most d e.now) e.now.steps }
{
    e.steps
        .as_slice()
        .iter()
        .any(|s| is_wrong_step(count, most, d, e, *s))
}

/// Whether an instruction goes wrong where it is reached at the depth `d`.
fn is_wrong_by(count: usize, most: u32, d: u32, e: &Exit) -> bool
    ensures { result ≡ is_wrong_by count most d e.now }
{
    d < e.pops || has_wrong_step(count, most, d, e)
}

/// An instruction by its place.
fn exit_at(exits: &[Exit], at: u32) -> Option<&Exit>
    ensures { option_copied result ≡ slice_get exits.now at }
{
    exits.get(at as usize)
}

/// A search in which no instruction has a depth.
fn nothing(alloc: Global, count: usize) -> Result<Search, NoMemory>
    ensures found { IfOk result (λ s. s.found ≡ replicate count None) }
    ensures todo { IfOk result (λ s. length s.todo ≡ 0) }
{
    let found = vec![in alloc; None; count]?;
    Ok(Search {
        found: Seq::from_vec(found),
        todo: Seq::new(alloc),
    })
}

impl Search {
    ghost use Rattle.value_flow.specs.stack_depths.Search.{IsSearchBut, GoesOn, Enters, Takes, Clashes, depth_in};

    /// The depth at an instruction.
    fn depth_at(&self, at: u32) -> Option<u32>
        ensures { result ≡ depth_in self.now at }
    {
        match self.found.get(at as usize) {
            None => None,
            Some(depth) => *depth,
        }
    }

    /// An instruction is entered at a depth. False where it has another depth.
    fn enter(&mut self, to: u32, depth: u32) -> Result<bool, NoMemory>
        requires { to < length self.old.found }
        ensures { IfOk result (Enters to depth self.old self.new) }
    {
        match self.depth_at(to) {
            Some(there) => Ok(there == depth),
            None => {
                self.todo.push(to)?;
                self.found.set(to as usize, Some(depth));
                Ok(true)
            }
        }
    }

    /// The steps from an instruction that is reached at the depth `d` are taken. False where one of them enters an instruction
    /// that has another depth.
    fn take(&mut self, e: &Exit, most: u32, d: u32) -> Result<bool, NoMemory>
        requires { is_wrong_by (length self.old.found) most d e.now ≡ false }
        ensures { IfOk result (λ ok. MatchBool ok (Takes d e.now (length e.now.steps) self.old self.new) (Clashes d e.now self.old)) }
    {
        for s in e.steps.as_slice() {
            let depth = depth_by(s.way, d, e);
            let ok = self.enter(s.to, depth as u32)?;
            if !ok {
                return Ok(false);
            }
        }
        Ok(true)
    }

    /// An instruction that waits no longer is looked at. False where the body has no depths because of it.
    fn visit(&mut self, exits: &[Exit], most: u32, at: u32) -> Result<bool, NoMemory>
        requires { IsSearchBut exits.now most at self.old }
        ensures { IfOk result (λ ok. MatchBool ok (GoesOn exits.now most self.old self.new) (IsBad exits.now most)) }
    {
        let Some(d) = self.depth_at(at) else {
            return Ok(true);
        };
        let Some(e) = exit_at(exits, at) else {
            return Ok(false);
        };
        if is_wrong_by(exits.len(), most, d, e) {
            return Ok(false);
        }
        let ok = self.take(e, most, d)?;
        Ok(ok)
    }
}

/// The depth of the evaluation stack at each instruction, before it; None for an instruction that no walk reaches. `most` is
/// the most that the body allows. None alone where the body has no depths: two walks reach an instruction at different
/// depths, a depth falls below 0 or passes the most, or a step leaves the instructions (III.1.7.4, III.1.7.5).
pub fn depths(
    alloc: Global,
    exits: &[Exit],
    most: u32,
) -> Result<Option<Seq<Option<u32>>>, NoMemory>
    ensures { IfOk result (λ found. MatchOption found (IsBad exits.now most) (AreDepths exits.now most)) }
{
    if exits.is_empty() {
        return Ok(None);
    }
    let mut search = nothing(alloc, exits.len())?;
    search.enter(0, 0)?;
    while let Some(at) = search.todo.pop() {
        let right = search.visit(exits, most, at)?;
        if !right {
            return Ok(None);
        }
    }
    let Search { found, todo: _ } = search;
    Ok(Some(found))
}
