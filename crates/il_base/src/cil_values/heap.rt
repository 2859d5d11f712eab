ghost use Rattle.std.specs.Prelude.{◌≡◌, [], ◌∷◌, ◌++◌, ◌<◌, length, slice_get, slice_set, IfOk, Some, OnOk, OnErr, OnSome};
ghost use Rattle.std.specs.Option.{option_copied};

use crate::NoMemory;
use crate::cil_values::object::Obj;
use std::alloc::Global;
use std::marker::Model;
use std::mem;

/// The objects that were made, each with a number: the first is 0. No object is ever removed.
#[derive(Drop)]
pub struct Heap {
    objects: Vec<Obj>,
}

impl Model for Heap {
    ghost use Rattle.std.specs.Prelude.{List};
    ghost use Rattle.std.specs.Coded.{codes};
    ghost use Rattle.il_base.specs.declared.cil_values.object.Obj.{Obj};
    ghost use Rattle.il_base.specs.contracts.cil_values.object.Obj as object;

    ghost Value = { List Obj };

    ghost coded = { Prim.hlevel (codes, object.the_row.coded) };

    ghost view = { λ h. h.objects.items };
}

impl Heap {
    /// The heap without objects. It takes no memory.
    pub fn new(alloc: Global) -> Heap
        ensures { result ≡ [] }
    {
        Heap {
            objects: Vec::new(alloc),
        }
    }

    /// Appends an object to those that are there, and gives its number. A heap has at most 4294967295 objects: more are
    /// answered as want of memory.
    pub fn add(&mut self, o: Obj) -> Result<u32, NoMemory>
        ensures place { IfOk result (λ at. at ≡ length self.old) }
        ensures ok { OnOk result (self.new ≡ self.old ++ o ∷ []) }
        ensures err { OnErr result (self.new ≡ self.old) }
    {
        let at = self.objects.len();
        if at >= u32::MAX as usize {
            return Err(NoMemory);
        }
        self.objects.push(o)?;
        Ok(at as u32)
    }

    /// The object with a number. None exactly where there is no such object.
    #[inline(always)]
    pub fn get(&self, at: u32) -> Option<&Obj>
        ensures value { option_copied result ≡ slice_get self.now at }
        ensures within { OnSome result (at < length self.now) }
    {
        self.objects.get(at as usize)
    }

    /// Takes an object out and puts another in its place.
    pub fn replace(&mut self, at: u32, o: Obj) -> Obj
        requires { at < length self.old }
        ensures taken { slice_get self.old at ≡ Some result }
        ensures rest { self.new ≡ slice_set self.old at o }
    {
        mem::replace(&mut self.objects[at as usize], o)
    }

    /// Puts an object in the place of another.
    pub fn set(&mut self, at: u32, o: Obj)
        requires { at < length self.old }
        ensures { self.new ≡ slice_set self.old at o }
    {
        self.objects[at as usize] = o;
    }
}
