// Names looked up among those that are declared.
ghost use Rattle.std.specs.Prelude.{◌≡◌, ◌&&◌, ◌==◌};
ghost use Rattle.std.specs.Str.{bytes_eq};
ghost use Rattle.source.specs.Names.{name_of, find, find_in, only as only_of, entries_of, fields_of, number_of};

use crate::name::{FieldName, Named};
use program::field::{FieldNo, No};
use program::headers::HeaderNo;

// The number of a name, of a header or of a table. A `for`: no plainer as a chain, whose closure needs clauses of its own in generic code.
pub fn find<const N: u8>(names: &[Named<N>], word: &[u8]) -> Option<No<N>>
    ensures { number_of result ≡ find (entries_of names.now) word.now }
{
    for entry in names {
        if entry.name.is(word) {
            return Some(entry.no);
        }
    }
    None
}

// The field of a name in one header.
pub fn field(fields: &[FieldName], header: HeaderNo, word: &[u8]) -> Option<FieldNo>
    ensures { number_of result ≡ find_in (fields_of fields.now) header.at word.now }
{
    fields
        .iter()
        .find(|entry| is_of(entry, header, word))
        .map(|entry| entry.no)
}

// Whether a field is that of a name in a header.
fn is_of(field: &FieldName, header: HeaderNo, word: &[u8]) -> bool
    ensures { result ≡ (field.now.header.at == header.at && bytes_eq (name_of field.now.name) word.now) }
{
    field.header == header && field.name.is(word)
}

// The one field of a name among all headers; none if there is none, or if there are two.
pub fn only(fields: &[FieldName], word: &[u8]) -> Option<FieldNo>
    ensures { number_of result ≡ only_of (fields_of fields.now) word.now }
{
    let mut found = None;
    for entry in fields {
        if entry.name.is(word) {
            if found.is_some() {
                return None;
            }
            found = Some(entry.no);
        }
    }
    found
}
