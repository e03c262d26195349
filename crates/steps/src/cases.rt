// The worked cases, run through the code.
use crate::sample::{always, both, declarations, fitting, packet, two_tables};
use pipeline::answer::OldPacketUnderWay;
use placement::place;
use play::event::{Event, Outcome};
use play::playing::play;
use program::action::{Action, Operand, Test};
use program::declarations::{MatchKind, TableDeclaration};
use program::field::{FieldNo, TableNo};
use program::node::{Does, Node};
use program::statement::{Kind, Statement};
use std::alloc::{AllocError, Global};
use std::process::Abort;
use std::test::Fail;
use table::entry::Pattern;
use table::lookup::chosen;

// A node in short: its stage, the table that it looks up, if it does, and where it goes on, at a branch for yes and for no.
fn told(node: &Node) -> (u16, Option<u8>, u16, u16) {
    match node.does {
        Does::Halt => (node.stage, None, 0, 0),
        Does::Act { next, .. } => (node.stage, None, next, 0),
        Does::Look { table, next } => (node.stage, Some(table.at), next, 0),
        Does::Ask { passed, failed, .. } => (node.stage, None, passed, failed),
    }
}

fn placed_as(
    rt: &impl Abort,
    heap: Global,
    statements: &[Statement],
    expected: &[(u16, Option<u8>, u16, u16)],
) -> Result<(), Fail> {
    let Ok(row) = place(heap, statements, 99) else {
        return Err(Fail::new("refused"));
    };
    assert!(rt; row.len() == expected.len());
    for (node, shape) in row.iter().zip(expected.iter()) {
        assert!(rt; told(node) == *shape);
    }
    Ok(())
}

// A. Two tables in a row stand on stages 0 and 1, then a halt.
#[test]
fn tables_in_a_row(rt: HostRuntime) -> Result<(), Fail> {
    placed_as(
        &rt,
        rt.alloc(),
        &two_tables(),
        &[(0, Some(0), 1, 0), (1, Some(1), 2, 0), (0, None, 0, 0)],
    )
}

// B. What follows an if is laid out behind each of its blocks.
#[test]
fn table_behind_a_branch(rt: HostRuntime) -> Result<(), Fail> {
    let statements = [
        Statement {
            offset: 0,
            kind: Kind::If {
                test: Test::Equals(FieldNo { at: 1 }, Operand::Number(1)),
                past: 2,
            },
        },
        Statement {
            offset: 12,
            kind: Kind::Apply(TableNo { at: 0 }),
        },
        Statement {
            offset: 0,
            kind: Kind::Skip { past: 0 },
        },
        Statement {
            offset: 23,
            kind: Kind::Apply(TableNo { at: 1 }),
        },
    ];
    placed_as(
        &rt,
        rt.alloc(),
        &statements,
        &[
            (0, None, 1, 4),
            (0, Some(0), 2, 0),
            (1, Some(1), 3, 0),
            (0, None, 0, 0),
            (0, Some(1), 5, 0),
            (0, None, 0, 0),
        ],
    )
}

fn idle_for(events: &mut Vec<Event>, steps: u32) -> Result<(), AllocError> {
    for _step in 0..steps {
        events.push(Event::Idle)?;
    }
    Ok(())
}

// What comes of events with two tables in a row: for each packet that leaves the index of its event and fields 2 and 3, and for each update its code.
fn told_of(
    rt: &impl Abort,
    heap: Global,
    events: Vec<Event>,
    left: &[(usize, u32, u32)],
    codes: &[u8],
) -> Result<(), Fail> {
    let Ok(outcomes) = play(heap, declarations(heap)?, &two_tables(), 18, events) else {
        return Err(Fail::new("refused"));
    };
    let mut seen = Vec::new(heap);
    let mut answers = Vec::new(heap);
    for (at, outcome) in outcomes.iter().enumerate() {
        match outcome {
            Outcome::Sent(None) => {}
            Outcome::Sent(Some(packet)) => seen.push((
                at,
                packet.fields.of[2],
                packet.fields.of[3],
            ))?,
            Outcome::Answered(Ok(())) => answers.push(0u8)?,
            Outcome::Answered(Err(OldPacketUnderWay)) => answers.push(12u8)?,
        }
    }
    assert!(rt; seen.as_slice() == left);
    assert!(rt; answers.as_slice() == codes);
    Ok(())
}

// C. A packet that comes at step 5 leaves at step 17.
#[test]
fn twelve_steps(rt: HostRuntime) -> Result<(), Fail> {
    let heap = rt.alloc();
    let mut events = Vec::new(heap);
    idle_for(&mut events, 5)?;
    events.push(Event::Comes(packet(0)))?;
    idle_for(&mut events, 20)?;
    told_of(&rt, heap, events, &[(17, 0, 0)], &[])
}

// D and E. An update between steps 5 and 6: the packet of step 5 goes by the old entries at all its tables, that of step 6 by the new.
// A second update between steps 8 and 9 is refused with 12; given again between steps 17 and 18 it is taken.
#[test]
fn updates_under_way(rt: HostRuntime) -> Result<(), Fail> {
    let heap = rt.alloc();
    let mut events = Vec::new(heap);
    events.push(Event::Update(both(heap, 1)?))?;
    idle_for(&mut events, 5)?;
    events.push(Event::Comes(packet(0)))?;
    events.push(Event::Update(both(heap, 2)?))?;
    events.push(Event::Comes(packet(0)))?;
    idle_for(&mut events, 2)?;
    events.push(Event::Update(both(heap, 3)?))?;
    idle_for(&mut events, 9)?;
    events.push(Event::Update(both(heap, 3)?))?;
    idle_for(&mut events, 1)?;
    told_of(&rt, heap, events, &[(20, 1, 1), (22, 2, 2)], &[0, 0, 12, 0])
}

// F. 300 in a field of 8 bits is 44.
#[test]
fn modulo_width(rt: HostRuntime) -> Result<(), Fail> {
    let heap = rt.alloc();
    let statements = [Statement {
        offset: 0,
        kind: Kind::Act(Action::Set(FieldNo { at: 1 }, Operand::Number(300))),
    }];
    let mut events = Vec::new(heap);
    events.push(Event::Comes(packet(0)))?;
    idle_for(&mut events, 12)?;
    let Ok(outcomes) = play(heap, declarations(heap)?, &statements, 20, events) else {
        return Err(Fail::new("refused"));
    };
    let Some(outcome) = outcomes.get(12) else {
        return Err(Fail::new("there is no step 12"));
    };
    let Outcome::Sent(Some(packet)) = *outcome else {
        return Err(Fail::new("nothing left at step 12"));
    };
    assert!(rt; packet.fields.of[1] == 44);
    Ok(())
}

// G. Mask 0xF0 value 0x10, then mask 0 value 0: 0x1F takes the first entry, 0x20 the second.
#[test]
fn first_that_fits(rt: HostRuntime) -> Result<(), Fail> {
    let heap = rt.alloc();
    let looks = Vec::from_slice(heap, &[FieldNo { at: 1 }])?;
    let table = TableDeclaration {
        kind: MatchKind::Ternary,
        looks,
        sets: Vec::new(heap),
        lines: 64,
    };
    let high = Pattern {
        value: 0x10,
        mask: 0xF0,
    };
    let entries = [
        fitting(high, FieldNo { at: 2 }, 0),
        always(FieldNo { at: 2 }, 0),
    ];
    assert!(rt; chosen(&table, &entries, &packet(0x1F)) == Some(0));
    assert!(rt; chosen(&table, &entries, &packet(0x20)) == Some(1));
    Ok(())
}
