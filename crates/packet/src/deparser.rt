// The deparser: puts a packet's bytes together.
ghost use Rattle.std.specs.Prelude.{◌≡◌, ◌+◌, ◌<◌, ◌≤◌, ◌++◌, length, drop, IfOk, MatchResult};
ghost use Rattle.packet.specs.Header.{size as size_in};
ghost use Rattle.packet.specs.Deparsing.{write_header, write_headers, deparse as deparse_in};
ghost use Rattle.packet.specs.Stands.{fields_of, present_of, header_of, holding, widths_in, headers_in};

use crate::cursor::Cursor;
use crate::format::Format;
use crate::presence::has;
use program::field::{FieldNo, Fields};
use program::headers::Header;

// The place for the bytes is too short for them.
#[derive(Clone, Copy, Debug, PartialEq, Eq, Hash)]
pub struct NoRoom;

impl Format<'_> {
    // The present headers in the order of the source and then the payload are written to the front of `out`, which the caller lends; gives the count of bytes.
    pub fn deparse(
        &self,
        fields: &Fields,
        present: u8,
        payload: &[u8],
        out: &mut [u8],
    ) -> Result<usize, NoRoom>
        ensures writes { MatchResult result (λ n. out.new ≡ deparse_in (widths_in self.now) (headers_in self.now) (holding fields.now present payload.now) ++ drop n out.old) (λ _. out.new ≡ out.old) }
        ensures counts { MatchResult result (λ n. n ≡ length (deparse_in (widths_in self.now) (headers_in self.now) (holding fields.now present payload.now))) (λ _. length out.old < length (deparse_in (widths_in self.now) (headers_in self.now) (holding fields.now present payload.now))) }
        ensures within { IfOk result (λ n. n ≤ length out.old) }
        ensures small { MatchResult result (λ n. n ≤ 2048 + length payload.now) (λ _. length out.old < 2048 + length payload.now) }
    {
        let head = self.size_of_present(present);
        let end = head + payload.len();
        if out.len() < end {
            return Err(NoRoom);
        }
        self.write_headers(fields, present, out);
        out[head..end].copy_from_slice(payload);
        Ok(end)
    }

    // The present headers are written to the front of `out`.
    fn write_headers(&self, fields: &Fields, present: u8, out: &mut [u8])
        requires { length (write_headers (widths_in self.now) (headers_in self.now) 0 (present_of present) (fields_of fields.now)) ≤ length out.old }
        ensures { out.new ≡ write_headers (widths_in self.now) (headers_in self.now) 0 (present_of present) (fields_of fields.now) ++ drop (length (write_headers (widths_in self.now) (headers_in self.now) 0 (present_of present) (fields_of fields.now))) out.old }
    {
        let mut at = 0usize;
        for (number, header) in self.headers.all.iter().enumerate() {
            if has(present, number) {
                let end = at + self.size(header);
                self.write_header(header, fields, &mut out[at..end]);
                at = end;
            }
        }
    }

    // A header's fields are written, each with its width, and fill `out`.
    fn write_header(&self, header: &Header, fields: &Fields, out: &mut [u8])
        requires { length out.old ≡ size_in (widths_in self.now) (header_of header.now) }
        ensures { out.new ≡ write_header (widths_in self.now) (header_of header.now) (fields_of fields.now) }
    {
        let mut cursor = Cursor::new();
        // By number: it names a width and a value, which stand in two arrays.
        for field in header.from..header.from + header.fields {
            cursor = cursor.put(
                out,
                fields.of[field as usize],
                self.widths.get(FieldNo { at: field }),
            );
        }
        if cursor.held > 0 {
            out[cursor.at] = (cursor.waiting << (8 - cursor.held)) as u8;
        }
    }
}
