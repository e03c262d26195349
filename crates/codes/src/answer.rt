// What a source or an update is answered.
use crate::code::Code;

// A code, and the offset of what it speaks of.
#[derive(Clone, Copy, Debug, PartialEq, Eq)]
pub struct Answer {
    pub code: Code,
    pub offset: usize,
}
