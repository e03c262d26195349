// The headers of a program.
ghost use Rattle.std.specs.Prelude.{◌≡◌, ◌+◌, ◌≤◌, map, length, IfOk, None, vec_len, slice_index_or};
ghost use Rattle.packet.specs.Stands.{header_of, headers_of};
ghost use Rattle.source.specs.Names.{fields_of, number_of};
ghost use Rattle.source.specs.Stands.{seen_of};
ghost use Rattle.compiler.specs.Packaging.{fields_in, fields_before, header as header_in, headers_from};

use crate::after::after;
use crate::limited::Limited;
use program::field::FieldNo;
use program::headers::{Header, HeaderNo, Headers};
use source::name::FieldName;
use std::alloc::{AllocError, Global};

// How many fields the headers before one have, and how many it has itself.
#[derive(Clone, Copy)]
struct Span {
    before: usize,
    own: usize,
}

fn counted(fields: &[FieldName], number: u8) -> Span
    ensures before { result.before ≡ fields_before number (fields_of fields.now) }
    ensures own { result.own ≡ fields_in number (fields_of fields.now) }
    ensures within { result.before + result.own ≤ length fields.now }
{
    let before = fields
        .iter()
        .filter(|field| field.header.at < number)
        .count();
    let own = fields
        .iter()
        .filter(|field| field.header.at == number)
        .count();
    Span { before, own }
}

// The choosing field of a header.
fn chooser(by: [Option<FieldNo>; 8], header: HeaderNo) -> Option<FieldNo>
    ensures { number_of result ≡ slice_index_or (map number_of by) header.at None }
{
    by[header.at as usize]
}

// One header: its fields, and what comes behind it.
fn header(heap: Global, limited: &Limited, header: HeaderNo) -> Result<Header, AllocError>
    ensures { IfOk result (λ h. header_of h ≡ header_in (seen_of limited.now.seen) header.at) }
{
    let seen = &limited.seen;
    let span = counted(&seen.names.fields, header.at);
    let by = chooser(seen.routes.by, header);
    let after = after(
        heap,
        &seen.names.headers,
        header.at,
        by,
        &seen.routes.choices,
    )?;
    Ok(Header {
        from: (span.before + 1) as u8,
        fields: span.own as u8,
        after,
    })
}

// All headers in the order of the source, and the one that comes first.
pub(crate) fn headers(
    heap: Global,
    limited: &Limited,
    first: HeaderNo,
) -> Result<Headers, AllocError>
    ensures all { IfOk result (λ hs. headers_of hs ≡ headers_from (seen_of limited.now.seen) 0 (vec_len limited.now.seen.names.headers)) }
    ensures first { IfOk result (λ hs. hs.first.at ≡ first.at) }
{
    let mut all = Vec::new(heap);
    // By number: what is made of a header is made of its number.
    for number in 0..limited.seen.names.headers.len() {
        let no = HeaderNo { at: number as u8 };
        all.push(header(heap, limited, no)?)?;
    }
    Ok(Headers { all, first })
}
