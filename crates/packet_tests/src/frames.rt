// Frames written out as bytes: taken apart, looked at, and put together again.
use crate::protocols::{headers, widths};
use packet::format::Format;
use program::field::Fields;
use std::alloc::Global;
use std::process::Abort;
use std::test::*;

// A UDP packet from 192.0.2.1 to port 53 of 198.51.100.7, tagged for network 100 with priority 5. By lines: Ethernet's addresses and type, the tag
// with the type behind it, IPv4, UDP, and the payload.
const TAGGED: &[u8; 50] = b"\x02\x00\x5e\x10\x00\x01\x52\x54\x00\x12\x34\x56\x81\x00\
    \xa0\x64\x08\x00\
    \x45\xb8\x00\x20\x1c\x46\x40\x00\x40\x11\x31\x93\xc0\x00\x02\x01\xc6\x33\x64\x07\
    \xc0\x01\x00\x35\x00\x0c\x74\x92\
    ping";

// The same packet without the tag.
const UNTAGGED: &[u8; 46] = b"\x02\x00\x5e\x10\x00\x01\x52\x54\x00\x12\x34\x56\x08\x00\
    \x45\xb8\x00\x20\x1c\x46\x40\x00\x40\x11\x31\x93\xc0\x00\x02\x01\xc6\x33\x64\x07\
    \xc0\x01\x00\x35\x00\x0c\x74\x92\
    ping";

// An ARP request of 192.0.2.1 for 192.0.2.2: headers end behind Ethernet.
const ARP: &[u8; 42] = b"\xff\xff\xff\xff\xff\xff\x52\x54\x00\x12\x34\x56\x08\x06\
    \x00\x01\x08\x00\x06\x04\x00\x01\x52\x54\x00\x12\x34\x56\xc0\x00\x02\x01\x00\x00\x00\x00\x00\x00\xc0\x00\x02\x02";

// The packet has these headers and so many bytes of payload, and is put together again as it was; gives its fields.
fn goes_through(
    rt: &impl Abort,
    heap: Global,
    bytes: &[u8],
    present: u8,
    payload: usize,
) -> Result<Fields, Fail> {
    let headers = headers(heap)?;
    let widths = widths()?;
    let format = Format {
        headers: &headers,
        widths: &widths,
    };
    let Ok(parsed) = format.parse(bytes) else {
        return Err(Fail::new("refused"));
    };
    assert_eq!(rt; parsed.present, present);
    assert_eq!(rt; parsed.payload.len(), payload);
    let mut out = [0u8; 64];
    let written = format.deparse(&parsed.fields, parsed.present, parsed.payload, &mut out);
    assert_eq!(rt; written, Ok(bytes.len()));
    assert!(rt; bytes.len() <= out.len());
    for (at, (byte, expected)) in out.iter().zip(bytes).enumerate() {
        assert_eq!(rt; byte, expected, "byte {at}");
    }
    Ok(parsed.fields)
}

// From a number on, the fields hold these values.
fn has(rt: &impl Abort, fields: &Fields, from: usize, values: &[u32]) -> Result<(), Fail> {
    assert!(rt; from < 64 && values.len() <= 64 - from);
    for (k, (field, value)) in fields.of[from..].iter().zip(values).enumerate() {
        assert_eq!(rt; field, value, "field {from} + {k}");
    }
    Ok(())
}

#[test]
fn tagged(rt: HostRuntime) -> Result<(), Fail> {
    let fields = goes_through(&rt, rt.alloc(), TAGGED, 0b1111, 4)?;
    has(&rt, &fields, 0, &[0])?;
    has(
        &rt,
        &fields,
        1,
        &[0x0200, 0x5e100001, 0x5254, 0x00123456, 0x8100],
    )?;
    has(&rt, &fields, 6, &[5, 0, 100, 0x0800])?;
    has(
        &rt,
        &fields,
        10,
        &[4, 5, 46, 0, 32, 0x1c46, 2, 0, 64, 17, 0x3193],
    )?;
    has(&rt, &fields, 21, &[0xc0000201, 0xc6336407])?;
    has(&rt, &fields, 23, &[0xc001, 53, 12, 0x7492])?;
    has(&rt, &fields, 27, &[0; 37])
}

#[test]
fn untagged(rt: HostRuntime) -> Result<(), Fail> {
    let fields = goes_through(&rt, rt.alloc(), UNTAGGED, 0b1101, 4)?;
    has(&rt, &fields, 5, &[0x0800, 0, 0, 0, 0, 4])?;
    has(&rt, &fields, 23, &[0xc001, 53, 12, 0x7492])
}

#[test]
fn arp(rt: HostRuntime) -> Result<(), Fail> {
    let fields = goes_through(&rt, rt.alloc(), ARP, 0b0001, 28)?;
    has(
        &rt,
        &fields,
        1,
        &[0xffff, 0xffffffff, 0x5254, 0x00123456, 0x0806],
    )?;
    has(&rt, &fields, 6, &[0; 58])
}

// The headers of the tagged packet take 46 bytes: with fewer a packet is refused, and so is one of more than 2,048 bytes.
#[test]
fn refused(rt: HostRuntime) -> Result<(), Fail> {
    let headers = headers(rt.alloc())?;
    let widths = widths()?;
    let format = Format {
        headers: &headers,
        widths: &widths,
    };
    let bytes: &[u8] = TAGGED;
    for length in 0..46usize {
        let Err(refused) = format.parse(&bytes[0..length]) else {
            return Err(Fail::new("not refused"));
        };
        assert_eq!(rt; u8::from(refused.code()), 6);
    }
    assert!(rt; format.parse(&bytes[0..46]).is_ok());
    assert!(rt; format.parse(&[0; 2048]).is_ok());
    assert!(rt; format.parse(&[0; 2049]).is_err());
    Ok(())
}
