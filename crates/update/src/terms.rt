// What the numbers of an update are read by.
use program::declarations::{Declarations, TableDeclaration};

// What a program declares, and the table whose entries are read.
#[derive(Clone, Copy)]
pub(crate) struct Terms<'a> {
    pub(crate) declarations: &'a Declarations,
    pub(crate) table: &'a TableDeclaration,
}
