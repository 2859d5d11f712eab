ghost use Rattle.std.specs.Prelude.{◌≡◌, ◌≢◌, ℕ, ◌+◌, ◌<◌, ◌≤◌, ◌&&◌, nat_le, nat_lt, length, drop, is_some, false, IfOk, if◌then◌else◌};
ghost use Rattle.il_base.specs.cli_format.Heaps.{text_at, string_of};
ghost use Rattle.meta_tables.specs.Held.{AreGood, AreTails, IsLead};

use crate::heaps::is_text;
use il_base::NoMemory;
use std::alloc::Global;
use std::marker::Model;

/// For each place of `#Strings` whether a text in UTF-8 begins there. It is found in one pass from the heap's end, in
/// time linear in the heap, however many cells name a text. Contracts see the bytes of the heap.
#[derive(Debug, Drop)]
pub struct Texts<'a> {
    heap: &'a [u8],
    good: Vec<bool>,
}

impl<'a> Model for Texts<'a> {
    ghost use Rattle.std.specs.Prelude.{◌≡◌, ℕ, List, length};
    ghost use Rattle.meta_tables.specs.Held.{AreGood};

    ghost Value = { List ℕ };

    ghost view = { λ t. t.heap.now };

    ghost invariant = { λ t. (length t.good.items ≡ length t.heap.now) × AreGood t.heap.now t.good.items 0 };
}

impl<'a> Texts<'a> {
    /// The places of a heap at which texts begin.
    pub fn read(alloc: Global, heap: &'a [u8]) -> Result<Texts<'a>, NoMemory>
        ensures { IfOk result (λ t. t ≡ heap.now) }
    {
        let mut good = vec![in alloc; false; heap.len()]?;
        let mut next = heap.len();
        let mut at = heap.len();
        while at > 0 {
            at -= 1;
            let here = begins(heap, &good, at, next);
            good[at] = here;
            next = lead_from(heap[at], at, next);
        }
        Ok(Texts { heap, good })
    }

    /// Whether a text in UTF-8 begins at a place.
    #[tactic(auto, using(crate::proofs::Utf8::asking))]
    pub fn has(&self, at: u32) -> bool
        ensures { result ≡ is_some (string_of self.now at) }
    {
        let at = at as usize;
        if at < self.heap.len() {
            self.good[at]
        } else {
            at == 0
        }
    }
}

/// Whether a text in UTF-8 begins at a place, where `next` is the first place after it at which no character goes on.
#[tactic(auto, using(crate::proofs::Utf8::beginning))]
fn begins(heap: &[u8], good: &[bool], at: usize, next: usize) -> bool
    requires order { at < next }
    requires reach { next ≤ length heap.now }
    requires size { length good.now ≡ length heap.now }
    requires good { AreGood heap.now good.now (at + 1) }
    requires tails { AreTails heap.now (at + 1) next }
    requires lead { IsLead heap.now next }
    ensures { result ≡ is_some (text_at (drop at heap.now)) }
{
    let b = heap[at];
    if b == 0 {
        return true;
    }
    if is_tail(b) {
        return false;
    }
    if next == heap.len() {
        return false;
    }
    is_text(&heap[at..next]) && good[next]
}

/// Whether a byte goes on with a character of several bytes.
fn is_tail(b: u8) -> bool
    ensures { result ≡ (nat_le 128 b && nat_lt b 192) }
{
    128 <= b && b < 192
}

/// The first place from a byte on at which no character goes on.
fn lead_from(b: u8, at: usize, next: usize) -> usize
    ensures { result ≡ (if nat_le 128 b && nat_lt b 192 then next else at) }
{
    if is_tail(b) { next } else { at }
}
