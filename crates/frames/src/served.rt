// How far serving the front of the bytes at hand came.

#[derive(Clone, Copy, Debug, PartialEq, Eq, Hash)]
pub enum Served {
    // No whole frame is at hand, and the input goes on.
    More,
    // The first `used` bytes were a frame, which is done.
    Frame { used: usize },
    // Nothing more is read.
    End,
    // A whole source stands there, which cannot be read yet.
    AtSource,
}
