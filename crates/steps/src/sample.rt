// A small program and a row of events for it.
use few::few::Few;
use play::event::Event;
use program::action::{Action, Operand};
use program::declarations::{Declarations, MatchKind, TableDeclaration};
use program::field::{FieldNo, Fields, TableNo, Width, Widths};
use program::statement::{Kind, Statement};
use std::alloc::{AllocError, Global};
use table::entry::{Edit, Entry, Pattern};

// Fields of 8 bits; two tables that look at field 1, of which the first sets field 2 and the second field 3.
pub(crate) fn declarations(heap: Global) -> Result<Declarations, AllocError> {
    let mut tables = Vec::new(heap);
    tables.push(table(heap, FieldNo { at: 2 })?)?;
    tables.push(table(heap, FieldNo { at: 3 })?)?;
    Ok(Declarations {
        widths: bytes(),
        tables,
    })
}

fn bytes() -> Widths {
    Widths {
        of: [Width { bits: 8 }; 64],
    }
}

fn table(heap: Global, sets: FieldNo) -> Result<TableDeclaration, AllocError> {
    let looks = Vec::from_slice(heap, &[FieldNo { at: 1 }])?;
    let sets = Vec::from_slice(heap, &[sets])?;
    Ok(TableDeclaration {
        kind: MatchKind::Ternary,
        looks,
        sets,
        lines: 64,
    })
}

// apply t; apply u;
pub(crate) fn two_tables() -> [Statement; 2] {
    [
        Statement {
            offset: 0,
            kind: Kind::Apply(TableNo { at: 0 }),
        },
        Statement {
            offset: 9,
            kind: Kind::Apply(TableNo { at: 1 }),
        },
    ]
}

// An update; a packet in every other step; a second update while the packets of the first version are under way, and a third that comes too soon, and once more when it may be taken.
pub(crate) fn events(heap: Global) -> Result<Vec<Event>, AllocError> {
    let mut events = Vec::new(heap);
    events.push(Event::Update(both(heap, 10)?))?;
    for n in 0..4u32 {
        events.push(Event::Comes(packet(n)))?;
        events.push(Event::Idle)?;
    }
    events.push(Event::Update(both(heap, 20)?))?;
    events.push(Event::Comes(packet(4)))?;
    events.push(Event::Update(both(heap, 30)?))?;
    for _step in 0..11u32 {
        events.push(Event::Idle)?;
    }
    events.push(Event::Update(both(heap, 30)?))?;
    events.push(Event::Comes(packet(5)))?;
    for _step in 0..13u32 {
        events.push(Event::Idle)?;
    }
    Ok(events)
}

// Every packet fits: the first table sets field 2, and the second field 3.
pub(crate) fn both(heap: Global, x: u32) -> Result<Vec<Edit>, AllocError> {
    let mut edits = Vec::new(heap);
    edits.push(Edit {
        table: TableNo { at: 0 },
        entries: vec![in heap; always(FieldNo { at: 2 }, x)]?,
    })?;
    edits.push(Edit {
        table: TableNo { at: 1 },
        entries: vec![in heap; always(FieldNo { at: 3 }, x)]?,
    })?;
    Ok(edits)
}

// An entry that fits every packet, and sets a field.
pub(crate) fn always(field: FieldNo, x: u32) -> Entry {
    fitting(Pattern { value: 0, mask: 0 }, field, x)
}

// An entry that fits where its pattern agrees with the one field that the table looks at, and sets a field.
pub(crate) fn fitting(pattern: Pattern, field: FieldNo, x: u32) -> Entry {
    let patterns = Few::of(&[pattern]).unwrap();
    let actions = Few::of(&[Action::Set(field, Operand::Number(x))]).unwrap();
    Entry { patterns, actions }
}

// A packet whose field 1 says which it is.
pub(crate) fn packet(n: u32) -> Fields {
    let mut fields = Fields { of: [0; 64] };
    fields.of[1] = n;
    fields
}
