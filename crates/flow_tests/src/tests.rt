//! Which sources are in which slots. The slots are the argument, 0, the local, 1, and the stack from 2 on.

ghost use Rattle.rules.specs.link_rules.Linked.{IsWorld};

use crate::build::world;
use il_base::world_model::World;
use il_base::{MethodId, NoMemory};
use rules::flow_rules::Source;
use std::alloc::Global;
use std::test::Fail;
use type_system::Types;
use value_flow::Flow;
use value_flow::body_graph::Graph;

/// The sources of the bodies.
#[derive(Clone, Copy, Debug, PartialEq, Eq)]
enum Known {
    Null,
    Opaque,
    Argument,
    /// The handle of the class C.
    Handle,
    /// The class C.
    Class,
    /// The text `A`.
    Text,
    Other,
}

fn kind_of(s: &Source) -> Known {
    match s {
        Source::Null => Known::Null,
        Source::Opaque => Known::Opaque,
        Source::Parameter(0) => Known::Argument,
        Source::KnownHandle(t) => if t.0 == 2 {
            Known::Handle
        } else {
            Known::Other
        },
        Source::KnownType(t) => if t.0 == 2 { Known::Class } else { Known::Other },
        Source::KnownText(text) => {
            if text.as_slice() == [0x41].as_slice() {
                Known::Text
            } else {
                Known::Other
            }
        }
        _ => Known::Other,
    }
}

/// Whether exactly these sources are in a slot at the instruction at an offset.
fn holds(flow: &Flow<'_>, at: u32, slot: u32, wanted: &[Known]) -> bool {
    let mut found = 0usize;
    for (k, s) in flow.sources().as_slice().iter().enumerate() {
        let Ok(k) = u32::try_from(k) else {
            return false;
        };
        if flow.has(at, slot, k) {
            if !wanted.contains(&kind_of(s)) {
                return false;
            }
            found = found.saturating_add(1);
        }
    }
    found == wanted.len()
}

/// An offset, a slot, and what has to be there.
type Row<'a> = (u32, u32, &'a [Known]);

/// The first row that isn't so, by its offset and its slot.
fn first_wrong(flow: &Flow<'_>, rows: &[Row<'_>]) -> Option<(u32, u32)> {
    for row in rows {
        if !holds(flow, row.0, row.1, row.2) {
            return Some((row.0, row.1));
        }
    }
    None
}

/// The first row of a method that isn't so.
fn wrong_in(
    alloc: Global,
    world: &World,
    m: u32,
    rows: &[Row<'_>],
) -> Result<Option<(u32, u32)>, Fail>
    requires { IsWorld world.now }
{
    let types = Types::new(alloc, world)?;
    let Ok(graph) = Graph::of(alloc, world, MethodId(m)) else {
        return Err("no graph".into());
    };
    let Ok(flow) = Flow::of(alloc, &types, &graph, MethodId(m)) else {
        return Err("no flow".into());
    };
    Ok(first_wrong(&flow, rows))
}

/// The handler sees the local as it is before each instruction of the block and after it, and after a store only what was stored.
/// `Type.GetTypeFromHandle` makes the type of its handle.
#[test]
fn from_a_try_block_into_its_handler(rt: HostRuntime) -> Result<(), Fail> {
    let alloc = rt.alloc();
    let world = world(alloc)?;
    let rows: &[Row<'_>] = &[
        (2, 1, &[Known::Null]),
        (7, 2, &[Known::Handle]),
        (12, 2, &[Known::Class]),
        (13, 1, &[Known::Class]),
        (18, 2, &[Known::Opaque]),
        (19, 1, &[Known::Null, Known::Class]),
        (19, 2, &[Known::Opaque]),
        (21, 2, &[Known::Null, Known::Class]),
        (26, 2, &[Known::Null, Known::Class]),
        (26, 3, &[Known::Text]),
        (34, 0, &[Known::Argument]),
        (34, 1, &[Known::Null, Known::Class]),
        (34, 2, &[]),
    ];
    let wrong = wrong_in(alloc, &world, 0, rows)?;
    assert_eq!(rt; wrong, None);
    Ok(())
}

/// A conditional branch goes on both ways; nothing goes on after `throw`.
#[test]
fn along_branches(rt: HostRuntime) -> Result<(), Fail> {
    let alloc = rt.alloc();
    let world = world(alloc)?;
    let rows: &[Row<'_>] = &[
        (3, 0, &[Known::Argument]),
        (4, 2, &[Known::Null]),
        (6, 0, &[Known::Argument, Known::Null]),
        (7, 2, &[Known::Argument, Known::Null]),
        (8, 0, &[]),
    ];
    let wrong = wrong_in(alloc, &world, 1, rows)?;
    assert_eq!(rt; wrong, None);
    Ok(())
}

/// A `switch` goes to each target and to the next instruction; nothing goes on after `ret`.
#[test]
fn along_a_switch(rt: HostRuntime) -> Result<(), Fail> {
    let alloc = rt.alloc();
    let world = world(alloc)?;
    let rows: &[Row<'_>] = &[
        (14, 0, &[Known::Argument]),
        (18, 2, &[Known::Argument]),
        (25, 2, &[Known::Null, Known::Argument, Known::Text]),
        (26, 2, &[]),
        (27, 0, &[]),
    ];
    let wrong = wrong_in(alloc, &world, 2, rows)?;
    assert_eq!(rt; wrong, None);
    Ok(())
}

/// `leave` goes to the handler, and the end of the handler to what comes next for each `leave`, not to the next instruction.
#[test]
fn through_a_finally_handler(rt: HostRuntime) -> Result<(), Fail> {
    let alloc = rt.alloc();
    let world = world(alloc)?;
    let rows: &[Row<'_>] = &[
        (9, 1, &[Known::Text]),
        (11, 1, &[Known::Null]),
        (17, 1, &[Known::Handle]),
        (19, 1, &[Known::Null, Known::Text, Known::Handle]),
        (21, 0, &[]),
        (22, 1, &[Known::Null, Known::Text, Known::Handle]),
        (25, 2, &[Known::Null, Known::Text, Known::Handle]),
        (26, 2, &[]),
    ];
    let wrong = wrong_in(alloc, &world, 3, rows)?;
    assert_eq!(rt; wrong, None);
    Ok(())
}

/// A local whose address is taken has a value of which nothing is known too, before that as well; an argument beside it doesn't.
#[test]
fn where_an_address_is_taken(rt: HostRuntime) -> Result<(), Fail> {
    let alloc = rt.alloc();
    let world = world(alloc)?;
    let rows: &[Row<'_>] = &[
        (0, 0, &[Known::Argument]),
        (0, 1, &[Known::Null, Known::Opaque]),
        (6, 1, &[Known::Handle, Known::Opaque]),
        (8, 2, &[Known::Opaque]),
        (10, 2, &[Known::Handle, Known::Opaque]),
        (11, 0, &[Known::Argument]),
    ];
    let wrong = wrong_in(alloc, &world, 4, rows)?;
    assert_eq!(rt; wrong, None);
    Ok(())
}

/// A call counts by its method's signature, also where that names a type that isn't there. Nothing goes on after `ldtoken` of a
/// method whose signature has no reading.
#[test]
fn by_the_signature_of_a_method(rt: HostRuntime) -> Result<(), Fail> {
    let alloc = rt.alloc();
    let world = world(alloc)?;
    let rows: &[Row<'_>] = &[
        (1, 2, &[Known::Argument]),
        (6, 0, &[Known::Argument]),
        (7, 2, &[Known::Null]),
        (12, 0, &[]),
        (12, 2, &[]),
    ];
    let wrong = wrong_in(alloc, &world, 5, rows)?;
    assert_eq!(rt; wrong, None);
    Ok(())
}
