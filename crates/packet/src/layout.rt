// How many bytes headers take.
ghost use Rattle.std.specs.Prelude.{◌≡◌, ◌≤◌, length};
ghost use Rattle.model.specs.Packet.{Packet};
ghost use Rattle.packet.specs.Header.{size as size_in};
ghost use Rattle.packet.specs.Deparsing.{write_headers};
ghost use Rattle.packet.specs.Stands.{header_of, present_of, widths_in, headers_in};

use crate::format::Format;
use crate::presence::has;
use program::field::FieldNo;
use program::headers::Header;

impl Format<'_> {
    // The bytes that a header takes.
    pub(crate) fn size(&self, header: &Header) -> usize
        ensures value { result ≡ size_in (widths_in self.now) (header_of header.now) }
        ensures small { result ≤ 256 }
    {
        let mut bits = 0usize;
        // By number: a part of an array behind two references is lent only through a slice of all of it, and the range would stand twice.
        for field in header.from..header.from + header.fields {
            bits += self.widths.get(FieldNo { at: field }).bits as usize;
        }
        bits.div_ceil(8)
    }

    // The bytes that the present headers take.
    pub(crate) fn size_of_present(&self, present: u8) -> usize
        ensures value { (p : Packet) → result ≡ length (write_headers (widths_in self.now) (headers_in self.now) 0 (present_of present) p) }
        ensures small { result ≤ 2048 }
    {
        let mut bytes = 0usize;
        for (number, header) in self.headers.all.iter().enumerate() {
            if has(present, number) {
                bytes += self.size(header);
            }
        }
        bytes
    }
}
