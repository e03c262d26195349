// What a source is cut into.

#[derive(Clone, Copy, Debug, PartialEq, Eq)]
pub enum Sign {
    Open,
    Close,
    Semicolon,
    Colon,
    Comma,
    Dot,
    Is,
    Equals,
    Less,
}

#[derive(Clone, Copy, Debug, PartialEq, Eq)]
pub enum Kind<'a> {
    Word(&'a [u8]),
    Number(u32),
    // A number of 2^32 or more.
    Huge,
    Sign(Sign),
    // A byte that begins no token of any other kind.
    Other,
    End,
}

// A token, and the offset of its first byte.
#[derive(Clone, Copy, Debug, PartialEq, Eq)]
pub struct Token<'a> {
    pub kind: Kind<'a>,
    pub at: usize,
}

// The kind of a token, and how many bytes it has.
#[derive(Clone, Copy, Debug, PartialEq, Eq)]
pub struct Lead<'a> {
    pub kind: Kind<'a>,
    pub width: usize,
}
