ghost use Rattle.std.specs.Prelude.{◌≡◌, [], ◌∷◌, length, reverse, MatchOption, OnOk, OnErr};

use crate::NoMemory;
use std::alloc::Global;
use std::marker::Model;

/// A stack that contracts see as the list of its elements, the top first.
#[derive(Debug, Drop)]
pub struct Stack<T> {
    items: Vec<T>,
}

impl<T> Model for Stack<T> {
    ghost use Rattle.std.specs.Prelude.{List, reverse};
    ghost use Rattle.std.specs.Coded.{coded_list};

    ghost Value = { List T };

    ghost coded = { coded_list T.code };

    ghost view = { λ s. reverse s.items.items };
}

impl<T> Stack<T> {
    /// The stack without elements. It takes no memory.
    pub fn new(alloc: Global) -> Stack<T>
        ensures { result ≡ [] }
    {
        Stack {
            items: Vec::new(alloc),
        }
    }

    /// How many elements it has.
    #[inline(always)]
    pub fn len(&self) -> usize
        ensures { result ≡ length self.now }
    {
        self.items.len()
    }

    /// The stack of these elements, the top last. It takes no memory.
    pub fn from_vec(items: Vec<T>) -> Stack<T>
        ensures { result ≡ reverse items.items }
    {
        Stack { items }
    }

    /// The elements, the top last, without taking memory.
    pub fn into_vec(self) -> Vec<T>
        ensures { result.items ≡ reverse self }
    {
        let Stack { items } = self;
        items
    }

    /// The elements, the top last.
    #[inline(always)]
    pub fn as_slice(&self) -> &[T]
        ensures { result.now ≡ reverse self.now }
    {
        self.items.as_slice()
    }

    /// Takes the top off.
    #[inline(always)]
    pub fn pop(&mut self) -> Option<T>
        ensures { MatchOption result ((self.old ≡ []) × (self.new ≡ [])) (λ top. self.old ≡ top ∷ self.new) }
    {
        self.items.pop()
    }
}

impl<T: Drop> Stack<T> {
    /// Puts an element on top.
    #[inline(always)]
    pub fn push(&mut self, item: T) -> Result<(), NoMemory>
        ensures ok { OnOk result (self.new ≡ item ∷ self.old) }
        ensures err { OnErr result (self.new ≡ self.old) }
    {
        self.items.push(item)?;
        Ok(())
    }
}
