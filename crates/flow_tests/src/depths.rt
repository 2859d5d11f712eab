use il_base::Seq;
use rules::flow_rules::{Exit, Step, Way};
use std::alloc::Global;
use std::test::Fail;
use value_flow::stack_depths::depths;

fn exit(alloc: Global, pops: u32, pushes: u32, steps: &[Step]) -> Result<Exit, Fail> {
    let steps = Seq::from_slice(alloc, steps)?;
    Ok(Exit {
        pops,
        pushes,
        steps,
    })
}

fn next(to: u32) -> Step {
    Step { to, way: Way::Next }
}

/// `ldnull; brtrue 3; ldnull; ret`: one walk comes to the return with a value, the other without.
#[test]
fn two_depths(rt: HostRuntime) -> Result<(), Fail> {
    let exits = vec![in rt.alloc();
        exit(rt.alloc(), 0, 1, &[next(1)])?,
        exit(rt.alloc(), 1, 0, &[next(2), next(3)])?,
        exit(rt.alloc(), 0, 1, &[next(3)])?,
        exit(rt.alloc(), 0, 0, &[])?,
    ]?;
    let found = depths(rt.alloc(), exits.as_slice(), 8)?;
    assert!(rt; found.is_none());
    Ok(())
}

/// `nop; pop; ret` where a catch handler begins at the second instruction.
#[test]
fn handler(rt: HostRuntime) -> Result<(), Fail> {
    let caught = Step {
        to: 1,
        way: Way::Caught,
    };
    let exits = vec![in rt.alloc();
        exit(rt.alloc(), 0, 0, &[next(2), caught])?,
        exit(rt.alloc(), 1, 0, &[next(2)])?,
        exit(rt.alloc(), 0, 0, &[])?,
    ]?;
    let found = depths(rt.alloc(), exits.as_slice(), 8)?;
    let found = found.ok_or("no depths")?;
    assert!(rt; found.as_slice() == [Some(0), Some(1), Some(0)].as_slice());
    Ok(())
}
