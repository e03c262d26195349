// The bytes that were read and are not yet served.
ghost use Rattle.std.specs.Prelude.{◌≤◌, vec_len};

// They are the first `filled` of a buffer that stays what it is while they come and go, so that a read costs what comes.
#[derive(Drop)]
pub struct Held {
    pub(crate) buffer: Vec<u8>,
    pub(crate) filled: usize,
    ghost within: { filled ≤ vec_len buffer },
}
