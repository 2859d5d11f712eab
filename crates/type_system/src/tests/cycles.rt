//! Types on a cycle: of bases, of interfaces, or of value types in instance fields.

use super::build::*;
use super::links::fault;
use il_base::world_model::AsmRec;
use il_base::{NoMemory, Seq};
use std::alloc::Global;
use std::test::Fail;

/// Why one assembly doesn't link, by what fills its record.
fn fault_of<F: FnOnce(&mut AsmRec, Global) -> Result<(), NoMemory>>(
    alloc: Global,
    fill: F,
) -> Result<Option<(u32, u8, u32)>, NoMemory>
    requires { F.IsAlwaysCallable fill }
{
    let mut recs = Seq::new(alloc);
    push_filled(&mut recs, alloc, fill)?;
    fault(alloc, recs)
}

/// Types 1 and 2: `class C : I {}`, and an interface `I` whose Extends names `C`, and which has a row of InterfaceImpl for
/// `C`. Both name no type above an interface.
fn fill_mixed(rec: &mut AsmRec, alloc: Global) -> Result<(), NoMemory> {
    begin(rec, alloc, b"App")?;
    class(rec, alloc, b"C", OBJECT, 0)?;
    interface_with_base(rec, alloc, b"I", 0x0200_0002)?;
    implement(rec, 0x0200_0002, 0x0200_0003)?;
    implement(rec, 0x0200_0003, 0x0200_0002)
}

#[test]
fn no_cycle_by_a_base_and_an_interface(rt: HostRuntime) -> Result<(), Fail> {
    let alloc = rt.alloc();
    assert_eq!(rt; fault_of(alloc, fill_mixed)?, None);
    Ok(())
}
