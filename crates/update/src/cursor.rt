// Numbers from the front of an update's bytes.
ghost use Rattle.std.specs.Prelude.{◌≡◌, ◌+◌, ◌^◌, ◌<◌, ◌≤◌, length, take, drop, MatchResult};
ghost use Rattle.update.specs.Numbers.{byte_at, half_at, word_at};
ghost use Rattle.update.specs.Stands.{Gives};
ghost use Rattle.update.specs.declared.fault.Fault.TheVariants.{RunsOut};

use crate::fault::Fault;

// The bytes that are left, and the offset of the first of them.
#[derive(Drop)]
pub(crate) struct Cursor<'a> {
    pub(crate) rest: &'a [u8],
    pub(crate) at: usize,
    ghost fits: { at + length rest.now < 2 ^ 64 },
}

impl Cursor<'_> {
    // The next bytes, as many as are asked for; the cursor passes over them.
    fn take<const N: usize>(&mut self) -> Result<[u8; N], Fault>
        ensures { MatchResult result
            (λ taken. (N ≤ length self.old.rest.now) × (taken ≡ take N self.old.rest.now) × (self.new.at ≡ self.old.at + N) × (self.new.rest.now ≡ drop N self.old.rest.now))
            (λ fault. (length self.old.rest.now < N) × (fault ≡ RunsOut (self.old.at + length self.old.rest.now))) }
    {
        let Some((taken, rest)) = self.rest.split_first_chunk::<N>() else {
            return Err(Fault::RunsOut(self.at + self.rest.len()));
        };
        self.rest = rest;
        self.at += N;
        Ok(*taken)
    }

    // The next byte.
    pub(crate) fn byte(&mut self) -> Result<u8, Fault>
        ensures { Gives (byte_at self.old.at self.old.rest.now) result (λ x. x) self.new.at self.new.rest.now }
    {
        let [byte] = self.take::<1>()?;
        Ok(byte)
    }

    // The next two bytes as a number, high byte first. Beside `word`, since no trait has from_be_bytes.
    pub(crate) fn half(&mut self) -> Result<u16, Fault>
        ensures { Gives (half_at self.old.at self.old.rest.now) result (λ x. x) self.new.at self.new.rest.now }
    {
        Ok(u16::from_be_bytes(self.take::<2>()?))
    }

    // The next four bytes as a number, high byte first.
    pub(crate) fn word(&mut self) -> Result<u32, Fault>
        ensures { Gives (word_at self.old.at self.old.rest.now) result (λ x. x) self.new.at self.new.rest.now }
    {
        Ok(u32::from_be_bytes(self.take::<4>()?))
    }
}
