//! The machine at its limits.

ghost use Rattle.std.specs.Prelude.{◌≡◌, true, IfSome};
ghost use Rattle.script_read.specs.Command.{IsFair, is_served};

use crate::World;
use grid_core::{Memory, Name, Point, Profile};
use script_read::{Act, Command, FullText, Query, Refusal, Said};
use std::process::Abort;
use std::test::Fail;

/// What is said to an act of an editor.
fn told(rt: &impl Abort, world: &mut World, editor: u8, act: Act) -> Result<Said, Memory> {
    let command = fair(editor, act).expect(rt, "an editor from 1 to 64, and an act that is served");
    let reply = world.step(&command)?;
    assert!(rt; reply.editor == editor);
    Ok(reply.said)
}

/// The command of an act that is served, by an editor from 1 to 64.
fn fair(editor: u8, act: Act) -> Option<Command>
    ensures fair { IfSome result IsFair }
    ensures served { IfSome result (λ c. is_served c.act ≡ true) }
{
    if editor == 0 || editor > 64 {
        return None;
    }
    if !is_served(&act) {
        return None;
    }
    Some(Command { editor, act })
}

/// Whether the act is one that is served.
fn is_served(act: &Act) -> bool
    ensures { result ≡ is_served act.now }
{
    match act {
        Act::Take | Act::Insert { .. } | Act::Delete { .. } => true,
        Act::Reads | Act::Commit | Act::Drop => true,
        Act::Ask(query) => matches!(query, Query::Show),
    }
}

/// The name under which an insertion is prepared.
fn inserted(
    rt: &impl Abort,
    world: &mut World,
    editor: u8,
    ends: [i64; 4],
) -> Result<Option<Name>, Memory> {
    let [x1, y1, x2, y2] = ends;
    let a = Point { x: x1, y: y1 };
    let b = Point { x: x2, y: y2 };
    Ok(match told(rt, world, editor, Act::Insert { a, b })? {
        Said::Ready { name } => Some(name),
        _ => None,
    })
}

/// What is said to the commit of a segment that an editor inserts.
fn drawn(rt: &impl Abort, world: &mut World, ends: [i64; 4]) -> Result<Said, Memory> {
    assert!(rt; inserted(rt, world, 1, ends)?.is_some());
    told(rt, world, 1, Act::Commit)
}

/// Sees that a segment is inserted and committed.
fn see_drawn(rt: &impl Abort, world: &mut World, ends: [i64; 4]) -> Result<(), Memory> {
    let said = drawn(rt, world, ends)?;
    assert!(rt; matches!(said, Said::Commit { .. }));
    Ok(())
}

#[test]
fn limits_a_segments(rt: HostRuntime) -> Result<(), Fail> {
    let mut world = World::open(rt.alloc(), Profile::edition_one())?;
    for k in 0..4096 {
        see_drawn(&rt, &mut world, [0, k, 1, k])?;
    }
    let said = drawn(&rt, &mut world, [0, 4096, 1, 4096])?;
    assert!(&rt;
        matches!(
            said,
            Said::Full {
                what: FullText::Segments
            }
        )
    );
    Ok(())
}

#[test]
fn limits_b_spans(rt: HostRuntime) -> Result<(), Fail> {
    let mut world = World::open(rt.alloc(), Profile::edition_one())?;
    for k in 0..511_u16 {
        let y = 32 * i64::from(k);
        see_drawn(&rt, &mut world, [-1_048_576, y, 1_048_576, y])?;
    }
    let said = drawn(&rt, &mut world, [-1_048_576, 16_352, 1_048_576, 16_352])?;
    assert!(&rt;
        matches!(
            said,
            Said::Full {
                what: FullText::Spans
            }
        )
    );
    Ok(())
}

#[test]
fn limits_c_passes(rt: HostRuntime) -> Result<(), Fail> {
    let mut world = World::open(rt.alloc(), Profile::edition_one())?;
    for k in 1..1448_u16 {
        let at = 16 * i64::from(k);
        see_drawn(&rt, &mut world, [0, at, 23_168, at])?;
        see_drawn(&rt, &mut world, [at, 0, at, 23_168])?;
    }
    let said = drawn(&rt, &mut world, [0, 23_160, 23_168, 23_160])?;
    assert!(&rt;
        matches!(
            said,
            Said::Full {
                what: FullText::Passes
            }
        )
    );
    Ok(())
}

/// Sees that an editor, who takes the newest version, inserts a segment and deletes it again.
fn see_in_and_out(rt: &impl Abort, world: &mut World, editor: u8) -> Result<(), Memory> {
    let _ = told(rt, world, editor, Act::Take)?;
    let name = inserted(rt, world, editor, [0, 0, 10, 0])?;
    let name = name.expect(rt, "a change that nothing refuses");
    let said = told(rt, world, editor, Act::Commit)?;
    assert!(rt; matches!(said, Said::Commit { .. }));
    let said = told(rt, world, editor, Act::Delete { name })?;
    assert!(rt; matches!(said, Said::Ready { .. }));
    let said = told(rt, world, editor, Act::Commit)?;
    assert!(rt; matches!(said, Said::Commit { .. }));
    Ok(())
}

#[test]
fn limits_d_commits(rt: HostRuntime) -> Result<(), Fail> {
    let mut world = World::open(rt.alloc(), Profile::edition_one())?;
    for _ in 0..43_690 {
        see_in_and_out(&rt, &mut world, 1)?;
        see_in_and_out(&rt, &mut world, 2)?;
        see_in_and_out(&rt, &mut world, 3)?;
    }
    see_in_and_out(&rt, &mut world, 1)?;
    see_in_and_out(&rt, &mut world, 2)?;
    let _ = told(&rt, &mut world, 3, Act::Take)?;
    assert!(&rt; inserted(&rt, &mut world, 3, [0, 0, 10, 0])?.is_some());
    let said = told(&rt, &mut world, 3, Act::Commit)?;
    assert!(&rt;
        matches!(
            said,
            Said::Full {
                what: FullText::Commits
            }
        )
    );
    Ok(())
}

#[test]
fn limits_e_serials(rt: HostRuntime) -> Result<(), Fail> {
    let mut world = World::open(rt.alloc(), Profile::edition_one())?;
    for _ in 0..65_535 {
        assert!(&rt; inserted(&rt, &mut world, 1, [0, 0, 10, 0])?.is_some());
        let said = told(&rt, &mut world, 1, Act::Drop)?;
        assert!(&rt; matches!(said, Said::Dropped));
    }
    let a = Point { x: 0, y: 0 };
    let b = Point { x: 10, y: 0 };
    let said = told(&rt, &mut world, 1, Act::Insert { a, b })?;
    assert!(&rt;
        matches!(
            said,
            Said::Refused {
                why: Refusal::Serials
            }
        )
    );
    Ok(())
}
