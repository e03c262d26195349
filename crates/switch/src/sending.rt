// Packets that leave.
ghost use Rattle.std.specs.Prelude.{◌≡◌, ◌≤◌, ◌++◌, length, take, drop, ◌==◌};
ghost use Rattle.model.specs.Packet.{Departure};
ghost use Rattle.compiler.specs.Stands.{format_of};
ghost use Rattle.pipeline.specs.Stands.{packet_of};
ghost use Rattle.stream.specs.Writing.{sent};

use packet::format::Format;
use pipeline::packet::{Packet, Payload};
use program::declarations::Declarations;
use program::headers::Headers;

// The bytes of a stored payload.
fn bytes(payload: &Payload) -> &[u8]
    ensures { result.now ≡ take payload.now.length payload.now.bytes }
{
    &payload.bytes[0..payload.length as usize]
}

// A packet is put together at the front of `out` and goes out by its port; one with port 0 is dropped. Gives the count of bytes.
pub(crate) fn send(
    out: &mut [u8],
    headers: &Headers,
    declarations: &Declarations,
    packet: &Packet,
) -> usize
    requires { 4100 ≤ length out.old }
    ensures writes { out.new ≡ sent (format_of headers.now declarations.now) (record { port = packet_of packet.now 0; packet = packet_of packet.now }) ++ drop result out.old }
    ensures small { result ≤ 4100 }
{
    let port = packet.fields.of[0];
    // Port 0 is none.
    if port == 0 {
        return 0;
    }
    let Some((head, body)) = out.split_first_chunk_mut::<4>() else {
        return 0;
    };
    let payload = bytes(&packet.payload);
    let format = Format {
        headers,
        widths: &declarations.widths,
    };
    let put = format.deparse(&packet.fields, packet.payload.present, payload, body);
    let Ok(length) = put else {
        return 0;
    };
    let [_, _, _, door] = port.to_be_bytes();
    let [_, _, _, _, _, _, high, low] = length.to_be_bytes();
    *head = [16, door, high, low];
    length + 4
}
