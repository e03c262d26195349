// Headers and their fields.
ghost use Rattle.std.specs.Prelude.{◌≡◌, ◌+◌, MatchResult};
ghost use Rattle.token.specs.Stands.{token_of};
ghost use Rattle.program.specs.Stands.{FieldNo, HeaderNo};
ghost use Rattle.source.specs.declared.fault.Fault.TheVariants.{Memory};
ghost use Rattle.source.specs.Names.{entry_of, field_of};
ghost use Rattle.source.specs.Declaring.{is_out, field_taken, add_header, add_field, set_width, header_name, field_name, field_width, in_header as in_header_at, whole_bytes, more_bits};
ghost use Rattle.source.specs.Stands.{names_of, seen_of, in_header_of};
ghost use Rattle.source.specs.Does.{Does};

use crate::fault::Fault;
use crate::looks::{expect, fresh, is_sign, number, room, word};
use crate::lookup::{field, find};
use crate::name::{FieldName, HeaderName};
use crate::phase::{Filling, HeaderPhase, Phase};
use crate::seen::{Names, Seen};
use program::field::{FieldNo, Width};
use program::headers::HeaderNo;
use token::token::{Sign, Token};

pub fn is_out(word: &[u8]) -> bool
    ensures { result ≡ is_out word.now }
{
    word == b"out".as_slice()
}

impl Names {
    // Whether a name is taken for a field of a header: `out` is.
    pub fn has_field(&self, header: HeaderNo, word: &[u8]) -> bool
        ensures { result ≡ field_taken (names_of self.now) header.at word.now }
    {
        is_out(word) || field(&self.fields, header, word).is_some()
    }
}

impl Seen {
    pub fn add_header(&mut self, header: HeaderName) -> Result<(), Fault>
        ensures { MatchResult result (λ _. seen_of self.new ≡ add_header (entry_of header) (seen_of self.old)) (λ f. f ≡ Memory) }
    {
        self.names.headers.push(header)?;
        Ok(())
    }

    pub fn add_field(&mut self, field: FieldName) -> Result<(), Fault>
        ensures { MatchResult result (λ _. seen_of self.new ≡ add_field (field_of field) (seen_of self.old)) (λ f. f ≡ Memory) }
    {
        self.names.fields.push(field)?;
        Ok(())
    }

    pub fn set_width(&mut self, field: FieldNo, width: Width)
        ensures { seen_of self.new ≡ set_width field.at width.bits (seen_of self.old) }
    {
        self.names.widths.set(field, width);
    }

    fn header_name(&mut self, x: Token<'_>) -> Result<Phase, Fault>
        ensures { Does (header_name (seen_of self.old) (token_of x.entry)) result self.new }
    {
        let word = word(x)?;
        let name = fresh(find(&self.names.headers, word).is_some(), x.at, word)?;
        let no = room(self.names.headers.len(), x.at)?;
        self.add_header(HeaderName { name, no })?;
        Ok(Phase::InHeader(HeaderPhase::HeaderOpen(no)))
    }

    // A field, or the end of the header.
    fn field_name(&mut self, filling: Filling, x: Token<'_>) -> Result<Phase, Fault>
        ensures { Does (field_name filling.header.at filling.bits (seen_of self.old) (token_of x.entry)) result self.new }
    {
        if is_sign(x, Sign::Close) {
            return if filling.is_whole() {
                Ok(Phase::Item)
            } else {
                Err(Fault::Header { at: x.at })
            };
        }
        let word = word(x)?;
        let header = filling.header;
        let name = fresh(self.names.has_field(header, word), x.at, word)?;
        let no = room(self.names.fields.len() + 1, x.at)?;
        self.add_field(FieldName { name, header, no })?;
        Ok(Phase::InHeader(HeaderPhase::FieldWidth(filling, no)))
    }

    fn field_width(
        &mut self,
        filling: Filling,
        field: FieldNo,
        x: Token<'_>,
    ) -> Result<Phase, Fault>
        ensures { Does (field_width filling.header.at field.at filling.bits (seen_of self.old) (token_of x.entry)) result self.new }
    {
        let width = number(x)?;
        if width == 0 || width > 32 {
            return Err(Fault::Range { at: x.at });
        }
        let width = Width { bits: width as u8 };
        self.set_width(field, width);
        Ok(Phase::InHeader(HeaderPhase::FieldEnd(filling.with(width))))
    }

    pub fn in_header(&mut self, phase: HeaderPhase, x: Token<'_>) -> Result<Phase, Fault>
        ensures { Does (in_header_at (in_header_of phase) (seen_of self.old) (token_of x.entry)) result self.new }
    {
        match phase {
            HeaderPhase::HeaderName => self.header_name(x),
            HeaderPhase::HeaderOpen(header) => {
                expect(x, Sign::Open)?;
                Ok(Phase::InHeader(HeaderPhase::FieldName(Filling { header, bits: 0 })))
            }
            HeaderPhase::FieldName(filling) => self.field_name(filling, x),
            HeaderPhase::FieldWidth(filling, field) => self.field_width(filling, field, x),
            HeaderPhase::FieldEnd(filling) => {
                expect(x, Sign::Semicolon)?;
                Ok(Phase::InHeader(HeaderPhase::FieldName(filling)))
            }
        }
    }
}

impl Filling {
    // Whether the header has 1 to 32 whole bytes.
    fn is_whole(self) -> bool
        ensures { result ≡ whole_bytes self.bits }
    {
        self.bits > 0 && self.bits <= 256 && self.bits % 8 == 0
    }

    // The header with one more field.
    fn with(self, width: Width) -> Filling
        ensures header { result.header ≡ self.header }
        ensures bits { result.bits ≡ more_bits self.bits width.bits }
    {
        Filling {
            header: self.header,
            bits: self.bits.saturating_add(u16::from(width.bits)).min(257),
        }
    }
}
