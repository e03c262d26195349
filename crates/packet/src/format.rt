// By what packets are taken apart and put together.
use program::field::Widths;
use program::headers::Headers;

// The headers of a program, and the bits of its fields.
#[derive(Clone, Copy)]
pub struct Format<'a> {
    pub headers: &'a Headers,
    pub widths: &'a Widths,
}
