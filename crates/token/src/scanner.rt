// A place in a source.
ghost use Rattle.std.specs.Prelude.{◌+◌, ◌^◌, ◌<◌, length};

// What is left of a source, and its offset.
#[derive(Drop)]
pub struct Scanner<'a> {
    pub rest: &'a [u8],
    pub at: usize,
    ghost fits: { at + length rest.now < 2 ^ 64 },
}
