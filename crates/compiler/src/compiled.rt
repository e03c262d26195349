// A program: all that a source says.
use program::declarations::Declarations;
use program::headers::Headers;
use program::statement::Statement;
use source::seen::Names;

// Names, headers with their choices, widths and tables, the statements of `do` in a row, and the offset at which it ends.
#[derive(Drop)]
pub struct Program {
    pub names: Names,
    pub headers: Headers,
    pub declarations: Declarations,
    pub statements: Vec<Statement>,
    pub end: u32,
}
