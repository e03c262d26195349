// What has been read so far.
use crate::block::{Block, TableSet};
use crate::name::{FieldName, HeaderName, Name, TableName};
use program::declarations::TableDeclaration;
use program::field::{FieldNo, Widths};
use program::headers::HeaderNo;
use program::statement::Statement;
use std::alloc::Global;

// Headers, fields but for `out`, the widths of all fields, and tables.
#[derive(Drop)]
pub struct Names {
    pub headers: Vec<HeaderName>,
    pub fields: Vec<FieldName>,
    pub widths: Widths,
    pub tables: Vec<TableName>,
}

// What a choice names: the end, a header, a header that is not declared yet, or a word that no header can have.
#[derive(Clone, Copy)]
pub enum Next {
    Ends,
    Header(HeaderNo),
    Later { name: Name, at: usize },
    Never { at: usize },
}

#[derive(Clone, Copy)]
pub struct Choice {
    pub header: HeaderNo,
    pub value: u32,
    pub next: Next,
}

// The header that comes first, the choosing field of each header, and the choices in the order of the source.
// No plainer beside the headers' names: the names live on in what is compiled, and the routes don't.
#[derive(Drop)]
pub struct Routes {
    pub first: Option<HeaderNo>,
    pub by: [Option<FieldNo>; 8],
    pub choices: Vec<Choice>,
}

// The fields of the `look` and the `sets` that are being read, and the tables that are read.
#[derive(Drop)]
pub struct Tables {
    pub heap: Global,
    pub looks: Vec<FieldNo>,
    pub sets: Vec<FieldNo>,
    pub declared: Vec<TableDeclaration>,
}

// Statements, open blocks, the tables that may have been applied on a path to here, whether `do` was read, and the offset of its `}`.
// No plainer as an Option: `do` is begun long before its end is known, and who takes `end` would have to answer for none.
#[derive(Drop)]
pub struct Body {
    pub rows: Vec<Statement>,
    pub blocks: Vec<Block>,
    pub applied: TableSet,
    pub begun: bool,
    pub end: usize,
}

#[derive(Drop)]
pub struct Seen {
    pub names: Names,
    pub routes: Routes,
    pub tables: Tables,
    pub body: Body,
}
