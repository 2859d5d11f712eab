//! The entry method begins (II.15.4.1.2).

ghost use Rattle.std.specs.Prelude.{◌≡◌, ◌+◌, [], OnOk};
ghost use Rattle.rules.specs.step_rules.Returns.{entry_begins, entry_frame};
ghost use Rattle.machine_words.specs.cil_closing.Callees.{callee_by};

use il_base::cil_values::{Frame, Obj, Prefix, Stack, State, Value, Waits};
use il_base::world_model::TypeExpr;
use il_base::{NoMemory, Seq, element};
use machine_frames::cil_frames::copy_use;
use machine_words::cil_closing::Callee;
use std::alloc::Global;

/// The frame of the entry in place of all others. One that would be the 18446744073709551616th is answered as want of memory.
fn entry_frame(
    alloc: Global,
    c: &Callee,
    args: Seq<Value>,
    locals: Seq<Value>,
    st: &mut State,
) -> Result<(), NoMemory>
    ensures { OnOk result (st.new ≡ entry_frame (callee_by c.now) args locals st.old) }
{
    if st.entered == u64::MAX {
        return Err(NoMemory);
    }
    let method = copy_use(alloc, &c.called)?;
    st.top = Frame {
        number: st.entered,
        method,
        args,
        locals,
        stack: Stack::new(alloc),
        at: 0,
        prefix: Prefix::None,
        running: Stack::new(alloc),
        waits: Waits::Nothing,
    };
    st.below = Stack::new(alloc);
    st.entered += 1;
    Ok(())
}

/// The entry method begins with these locals. Main's array of strings is made now.
#[tactic(auto, unfolding(rules::specs::step_rules::Returns::entry_begins))]
pub fn entry_begins(
    alloc: Global,
    c: &Callee,
    locals: Seq<Value>,
    st: &mut State,
) -> Result<(), NoMemory>
    ensures { OnOk result (st.new ≡ entry_begins (callee_by c.now) locals st.old) }
{
    let mut args = Seq::new(alloc);
    if !c.signature.get().params.is_empty() {
        let a = st.heap.add(Obj::Array {
            of: TypeExpr::Prim(element::STRING),
            cells: Seq::new(alloc),
        })?;
        args.push(Value::Object(a))?;
    }
    entry_frame(alloc, c, args, locals, st)
}
