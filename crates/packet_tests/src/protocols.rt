// Ethernet, 802.1Q, IPv4 and UDP as a switch program declares them. An address of 48 bits is two fields.
use program::field::{FieldNo, Width, Widths};
use program::headers::{After, Choice, Header, HeaderNo, Headers};
use std::alloc::{AllocError, Global};
use std::test::Fail;

const TAG: Option<HeaderNo> = Some(HeaderNo { at: 1 });

const IPV4: Option<HeaderNo> = Some(HeaderNo { at: 2 });

const UDP: Option<HeaderNo> = Some(HeaderNo { at: 3 });

pub(crate) fn headers(heap: Global) -> Result<Headers, AllocError> {
    let ethernet = Header {
        from: 1,
        fields: 5,
        after: Some(After {
            field: FieldNo { at: 5 },
            choices: vec![in heap; choice(0x8100, TAG), choice(0x0800, IPV4)]?,
        }),
    };
    let tag = Header {
        from: 6,
        fields: 4,
        after: Some(After {
            field: FieldNo { at: 9 },
            choices: vec![in heap; choice(0x0800, IPV4)]?,
        }),
    };
    let ipv4 = Header {
        from: 10,
        fields: 13,
        after: Some(After {
            field: FieldNo { at: 19 },
            choices: vec![in heap; choice(17, UDP)]?,
        }),
    };
    let udp = Header {
        from: 23,
        fields: 4,
        after: None,
    };
    Ok(Headers {
        all: vec![in heap; ethernet, tag, ipv4, udp]?,
        first: HeaderNo { at: 0 },
    })
}

fn choice(value: u32, next: Option<HeaderNo>) -> Choice {
    Choice { value, next }
}

// The widths of the fields, a byte each: of `out`; of Ethernet's destination, source and type; of the tag's priority, drop eligibility, network and
// type; of IPv4's version, header length, service, congestion, length, identification, flags, fragment, time to live, protocol, checksum,
// source and destination; and of UDP's source, destination, length and checksum. The other fields have none.
const BITS: &[u8; 27] = b"\x08\x10\x20\x10\x20\x10\x03\x01\x0c\x10\
    \x04\x04\x06\x02\x10\x10\x03\x0d\x08\x08\x10\x20\x20\x10\x10\x10\x10";

pub(crate) fn widths() -> Result<Widths, Fail> {
    let mut of = [Width { bits: 0 }; 64];
    for (width, bits) in of.iter_mut().zip(BITS.iter()) {
        let Some(bits) = Width::new(*bits) else {
            return Err(Fail::new("too wide"));
        };
        *width = bits;
    }
    Ok(Widths { of })
}
