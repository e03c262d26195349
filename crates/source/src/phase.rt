// What is awaited next.
use crate::block::{Detour, Fork};
use program::action::Operand;
use program::field::FieldNo;
use program::headers::HeaderNo;

// What a change does to its field.
#[derive(Clone, Copy, Debug, PartialEq, Eq)]
pub enum Verb {
    Set,
    Add,
}

// How a test compares its field.
#[derive(Clone, Copy, Debug, PartialEq, Eq)]
pub enum Relation {
    Equals,
    Less,
}

// What an operand is read for: to set or add to a field, or to compare one; with the offset of the keyword.
#[derive(Clone, Copy)]
pub enum Goal {
    Change {
        verb: Verb,
        field: FieldNo,
        at: usize,
    },
    Ask {
        relation: Relation,
        field: FieldNo,
        at: usize,
    },
}

// The lists of a table.
#[derive(Clone, Copy)]
pub enum Part {
    Looks,
    Sets,
}

// What a field is read for.
#[derive(Clone, Copy)]
pub enum Purpose {
    By(HeaderNo),
    Listed(Part),
    Target { verb: Verb, at: usize },
    Tested { at: usize },
    Operand(Goal),
}

// A header whose fields are being read, and their bits so far: 257 stands for all that are too many (no plainer as an Option: each sum would have two cases, and both are one refusal).
#[derive(Clone, Copy)]
pub struct Filling {
    pub header: HeaderNo,
    pub bits: u16,
}

#[derive(Clone, Copy)]
pub enum HeaderPhase {
    HeaderName,
    HeaderOpen(HeaderNo),
    FieldName(Filling),
    FieldWidth(Filling, FieldNo),
    FieldEnd(Filling),
}

// A header whose choices are being read, and how many it has so far.
#[derive(Clone, Copy)]
pub struct Choosing {
    pub header: HeaderNo,
    pub count: u8,
}

#[derive(Clone, Copy)]
pub enum RoutePhase {
    FirstName,
    FirstEnd,
    AfterName,
    AfterBy(HeaderNo),
    ChoiceValue(Choosing),
    ChoiceColon(Choosing, u32),
    ChoiceNext(Choosing, u32),
    ChoiceEnd(Choosing),
}

#[derive(Clone, Copy)]
pub enum TablePhase {
    TableName,
    TableOpen,
    LookWord,
    SetsWord,
    ListStart(Part),
    LinesWord,
    Lines,
    LinesEnd(u16),
    TableClose(u16),
}

// The header and the field that a name may stand for, and its offset.
#[derive(Clone, Copy)]
pub struct Meaning {
    pub header: Option<HeaderNo>,
    pub field: Option<FieldNo>,
    pub at: usize,
}

// A field's name; what stands behind it, with what it may mean; the name behind a dot; what stands behind a field.
#[derive(Clone, Copy)]
pub enum FieldPhase {
    Named,
    Behind(Meaning),
    Member(HeaderNo),
    Past(FieldNo),
}

#[derive(Clone, Copy)]
pub enum BodyPhase {
    DoOpen,
    Statement,
    ApplyName { at: usize },
    ApplyEnd,
    Value(Goal),
    Settle(Goal, Operand),
    BehindYes(Fork),
    ElseOpen(Detour),
}

#[derive(Clone, Copy)]
pub enum Phase {
    Item,
    InHeader(HeaderPhase),
    InRoute(RoutePhase),
    InTable(TablePhase),
    InField(Purpose, FieldPhase),
    InBody(BodyPhase),
}
