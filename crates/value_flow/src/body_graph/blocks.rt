//! Try blocks and handlers (I.12.4.2.5, II.25.4.6).

ghost use Rattle.std.specs.Prelude.{◌≡◌, ◌++◌, drop, find, suc, IfOk, OnOk};
ghost use Rattle.std.specs.List.{flat_map};
ghost use Rattle.rules.specs.flow_rules.Steps.{covers, in_try, in_handler, is_finally, is_crossed, handler_or, leaves_to, is_shorter, better, innermost, innermost_from, goes_on, ends_at};

use il_base::{Form, Handler, Instr, NoMemory, Operand, Seq};
use rules::flow_rules::{Placed, clause_kind};
use std::alloc::Global;

fn covers(from: u32, len: u32, at: u32) -> bool
    ensures { result ≡ covers from len at }
{
    from <= at && u64::from(at) < u64::from(from) + u64::from(len)
}

/// Whether an IL offset lies in the try block of a clause.
pub(crate) fn in_try(h: Handler, at: u32) -> bool
    ensures { result ≡ in_try h at }
{
    covers(h.try_at, h.try_len, at)
}

fn in_handler(h: Handler, at: u32) -> bool
    ensures { result ≡ in_handler h at }
{
    covers(h.at, h.len, at)
}

fn is_finally(h: Handler) -> bool
    ensures { result ≡ is_finally h }
{
    h.kind == clause_kind::FINALLY
}

/// Whether a `leave` from one offset to another goes out of the try block of a finally clause.
fn is_crossed(at: u32, to: u32, h: Handler) -> bool
    ensures { result ≡ is_crossed at to h }
{
    is_finally(h) && in_try(h, at) && !in_try(h, to)
}

/// The offset where a `leave` goes that has these clauses still to cross.
pub(crate) fn leaves_to(handlers: &[Handler], at: u32, to: u32) -> u32
    ensures { result ≡ leaves_to handlers.now at to }
{
    for h in handlers {
        if is_crossed(at, to, *h) {
            return h.at;
        }
    }
    to
}

fn is_shorter(h: Handler, best: Option<Placed>) -> bool
    ensures { result ≡ is_shorter h best }
{
    match best {
        None => true,
        Some(best) => h.len < best.clause.len,
    }
}

fn better(at: u32, place: usize, h: Handler, best: Option<Placed>) -> Option<Placed>
    ensures { result ≡ better at place h best }
{
    if in_handler(h, at) && is_shorter(h, best) {
        Some(Placed { place, clause: h })
    } else {
        best
    }
}

/// The innermost handler that an offset lies in.
#[tactic(auto, unfolding(rules::specs::flow_rules::Steps::innermost_from))]
pub(crate) fn innermost(handlers: &[Handler], at: u32) -> Option<Placed>
    ensures { result ≡ innermost handlers.now at }
{
    let mut best = None;
    for (n, h) in handlers.iter().enumerate() {
        best = better(at, n, *h, best);
    }
    best
}

/// The clauses after the first `count`.
fn behind(handlers: &[Handler], count: usize) -> &[Handler]
    ensures { result.now ≡ drop count handlers.now }
{
    if count > handlers.len() {
        &[]
    } else {
        &handlers[count..]
    }
}

/// Puts where control goes on for a `leave` that crosses a clause.
fn put_goes_on(
    handlers: &[Handler],
    p: Placed,
    later: &[Handler],
    i: &Instr,
    out: &mut Seq<u32>,
) -> Result<(), NoMemory>
    requires { later.now ≡ drop (suc p.place) handlers.now }
    ensures { OnOk result (out.new ≡ out.old ++ goes_on handlers.now p i.now) }
{
    if i.form != Form::Leave {
        return Ok(());
    }
    let Operand::Target(to) = &i.operand else {
        return Ok(());
    };
    if is_crossed(i.at, *to, p.clause) {
        out.push(leaves_to(later, i.at, *to))?;
    }
    Ok(())
}

fn all_that_go_on(
    alloc: Global,
    code: &[Instr],
    handlers: &[Handler],
    p: Placed,
) -> Result<Seq<u32>, NoMemory>
    ensures { IfOk result (λ out. out ≡ flat_map (goes_on handlers.now p) code.now) }
{
    let later = match p.place.checked_add(1) {
        None => &[],
        Some(next) => behind(handlers, next),
    };
    let mut out = Seq::new(alloc);
    for i in code {
        put_goes_on(handlers, p, later, i, &mut out)?;
    }
    Ok(out)
}

/// The offsets where an `endfinally` in this handler leads.
pub(crate) fn ends_at(
    alloc: Global,
    code: &[Instr],
    handlers: &[Handler],
    inner: Option<Placed>,
) -> Result<Seq<u32>, NoMemory>
    ensures { IfOk result (λ out. out ≡ ends_at code.now handlers.now inner) }
{
    match inner {
        None => Ok(Seq::new(alloc)),
        Some(p) => {
            if is_finally(p.clause) {
                all_that_go_on(alloc, code, handlers, p)
            } else {
                Ok(Seq::new(alloc))
            }
        }
    }
}
