// Jumps along a row of statements.
ghost use Rattle.std.specs.Prelude.{◌≡◌, ◌+◌, min};

// Where a jump from the statement at an index lands: `past` statements behind the next one, at most at the end of so many statements.
pub fn landing(count: usize, at: usize, past: u32) -> usize
    ensures { result ≡ min count (at + 1 + past) }
{
    if at >= count {
        return count;
    }
    let next = at + 1;
    next + (count - next).min(past as usize)
}
