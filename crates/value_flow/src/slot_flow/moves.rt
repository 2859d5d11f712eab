ghost use Rattle.std.specs.Prelude.{◌≡◌, slice_get, IfOk};
ghost use Rattle.std.specs.Option.{option_copied};
ghost use Rattle.rules.specs.flow_rules.Depths.{depth_at};
ghost use Rattle.rules.specs.flow_rules.Carrying.{held, is_slot};
ghost use Rattle.value_flow.specs.slot_flow.Facts.{turned, flow_in, has_number, low_of};

use il_base::NoMemory;
use rules::flow_rules::{Exit, Move, Turning};

/// The instructions of a body as sources go through them. Sources are numbers below `count`.
#[derive(Clone, Copy)]
pub struct Flowing<'a> {
    /// The source of each argument and local at the start.
    pub begins: &'a [u32],
    /// The depth of the evaluation stack at each instruction; None for one that no walk reaches.
    pub depths: &'a [Option<u32>],
    pub exits: &'a [Exit],
    pub moves: &'a [Move<u32>],
    /// Arguments and locals whose address is taken somewhere.
    pub taken: &'a [u32],
    /// The source that a handle's source turns into, for each source.
    pub from_handle: &'a [u32],
    /// The source that a name's source turns into, for each source.
    pub from_text: &'a [u32],
    /// The source of a value of which nothing is known.
    pub unknown: u32,
    /// How many sources there are.
    pub count: u32,
    /// How many slots there are: arguments, locals and the deepest stack.
    pub slots: u32,
}

impl<'a> Flowing<'a> {
    /// The depth of the evaluation stack at an instruction.
    pub(crate) fn depth_at(&self, i: u32) -> Option<u32>
        ensures { result ≡ depth_at self.now.depths.now i }
    {
        match self.depths.get(i as usize) {
            None => None,
            Some(depth) => *depth,
        }
    }

    pub(crate) fn exit_at(&self, i: u32) -> Option<&'a Exit>
        ensures { option_copied result ≡ slice_get self.now.exits.now i }
    {
        self.exits.get(i as usize)
    }

    pub(crate) fn move_at(&self, i: u32) -> Option<Move<u32>>
        ensures { result ≡ slice_get self.now.moves.now i }
    {
        self.moves.get(i as usize).copied()
    }

    /// The source that a call turns a source into.
    pub(crate) fn turn(&self, t: Turning, s: u32) -> u32
        ensures { result ≡ turned self.now t s }
    {
        let turned = match t {
            Turning::FromHandle => self.from_handle.get(s as usize),
            Turning::FromText => self.from_text.get(s as usize),
        };
        match turned {
            None => self.unknown,
            Some(source) => *source,
        }
    }

    /// Whether a slot is one at an instruction: an argument, a local, or on the stack there.
    fn is_slot(&self, i: u32, slot: u32) -> bool
        ensures { result ≡ is_slot (flow_in self.now) i slot }
    {
        match self.depth_at(i) {
            None => false,
            Some(d) => (slot as u64) < self.begins.len() as u64 + u64::from(d),
        }
    }

    /// Whether a slot and a source at an instruction have a number.
    pub(crate) fn has_number(&self, at: u32, slot: u32, source: u32) -> bool
        ensures { result ≡ has_number self.now (held at slot source) }
    {
        self.is_slot(at, slot) && slot < self.slots && source < self.count
    }

    /// The slot into which the result of an instruction is put that is reached at the depth `d`.
    pub(crate) fn lowest(&self, d: u32, e: &Exit) -> Result<u32, NoMemory>
        ensures { IfOk result (λ low. low ≡ low_of self.now d e.now) }
    {
        let Ok(fixed) = u32::try_from(self.begins.len()) else {
            return Err(NoMemory);
        };
        match fixed.checked_add(d.saturating_sub(e.pops)) {
            None => Err(NoMemory),
            Some(low) => Ok(low),
        }
    }
}
