// The parser: takes a packet's bytes apart.
ghost use Rattle.std.specs.Prelude.{◌≡◌, ◌*◌, ◌<◌, ◌≤◌, length, drop, IfOk, MatchResult, OnOk};
ghost use Rattle.packet.specs.Bits.{bits_of};
ghost use Rattle.packet.specs.Header.{bit_count, size as size_in};
ghost use Rattle.packet.specs.Parsing.{read_fields, read_header, behind as behind_in, parse as parse_in};
ghost use Rattle.packet.specs.Stands.{fields_of, next_of, header_of, outcome_of, widths_in, headers_in};
ghost use Rattle.packet.specs.Progress.{reached};

use crate::bits::Bytes;
use crate::choosing::{behind, comes};
use crate::format::Format;
use crate::parsed::{Parsed, Refused};
use crate::presence::with;
use program::field::{FieldNo, Fields};
use program::headers::{Header, HeaderNo};

// How far a packet has been taken apart: what was read, what comes next, and the first byte that is left.
#[derive(Clone, Copy)]
struct Progress {
    fields: Fields,
    present: u8,
    next: Option<HeaderNo>,
    at: usize,
}

// The most bytes that a packet may have.
const LONGEST: usize = 2048;

impl Format<'_> {
    // What a packet's bytes hold, or why it is refused.
    pub fn parse<'a>(&self, bytes: &'a [u8]) -> Result<Parsed<'a>, Refused>
        ensures parses { parse_in (widths_in self.now) (headers_in self.now) self.now.headers.now.first.at bytes.now ≡ outcome_of result }
        ensures short { IfOk result (λ p. length p.payload.now ≤ 2048) }
    {
        if bytes.len() > LONGEST {
            return Err(Refused::TooLong);
        }
        let packet = Bytes { all: bytes };
        let mut progress = Progress {
            fields: Fields { of: [0; 64] },
            present: 0,
            next: Some(self.headers.first),
            at: 0,
        };
        for (number, header) in self.headers.all.iter().enumerate() {
            if comes(progress.next, number) {
                self.read(&mut progress, number, header, &packet)?;
            }
        }
        Ok(Parsed {
            fields: progress.fields,
            present: progress.present,
            payload: &bytes[progress.at..],
        })
    }

    // The header that comes next is read, if the packet does not end within it.
    fn read(
        &self,
        progress: &mut Progress,
        number: usize,
        header: &Header,
        bytes: &Bytes<'_>,
    ) -> Result<(), Refused>
        requires known { number < 8 }
        requires within { progress.old.at ≤ length bytes.now.all.now }
        ensures stays { progress.new.at ≤ length bytes.now.all.now }
        ensures fits { MatchResult result (λ _. size_in (widths_in self.now) (header_of header.now) ≤ length (drop progress.old.at bytes.now.all.now)) (λ e. (e ≡ Refused.EndsWithinHeader) × (length (drop progress.old.at bytes.now.all.now) < size_in (widths_in self.now) (header_of header.now))) }
        ensures reads { OnOk result (reached progress.new bytes.now.all.now ≡ read_header (widths_in self.now) number (header_of header.now) (reached progress.old bytes.now.all.now)) }
        ensures turns { OnOk result (next_of progress.new.next ≡ behind_in (header_of header.now) (reached progress.new bytes.now.all.now)) }
    {
        let left = Bytes {
            all: &bytes.all[progress.at..],
        };
        let taken = self.size(header);
        if left.all.len() < taken {
            return Err(Refused::EndsWithinHeader);
        }
        self.read_fields(header, &left, &mut progress.fields);
        progress.present = with(progress.present, number);
        progress.next = behind(header, &progress.fields);
        progress.at += taken;
        Ok(())
    }

    // A header's fields are read from the front of the bytes.
    fn read_fields(&self, header: &Header, bytes: &Bytes<'_>, fields: &mut Fields)
        requires { bit_count (widths_in self.now) (header_of header.now).count (header_of header.now).first ≤ 8 * length bytes.now.all.now }
        ensures { fields_of fields.new ≡ read_fields (widths_in self.now) (header_of header.now).count (header_of header.now).first (bits_of bytes.now.all.now) (fields_of fields.old) }
    {
        let mut at = 0usize;
        // By number: a proof does not know what a `for` over an array that is written to has written.
        for field in header.from..header.from + header.fields {
            let width = self.widths.get(FieldNo { at: field });
            fields.of[field as usize] = bytes.number_at(at, width);
            at += width.bits as usize;
        }
    }
}
