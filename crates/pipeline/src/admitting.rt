// What comes is put at the spare place of the store.
ghost use Rattle.std.specs.Prelude.{◌≡◌};
ghost use Rattle.pipeline.specs.Stands.{view_of, incoming_of};

use crate::packet::{Incoming, Stored};

// A packet is stored, with the version that it goes by. Of the payload only its own bytes are copied.
pub(crate) fn admit(stored: &mut Stored, incoming: Incoming<'_>, version: bool)
    ensures packet { (view_of stored.new).packet ≡ incoming_of incoming.entry }
    ensures version { stored.new.version ≡ version }
{
    let fields = *incoming.fields;
    stored.packet.fields = fields;
    let length = incoming.payload.len();
    stored.packet.payload.present = incoming.present;
    stored.packet.payload.bytes[0..length].copy_from_slice(incoming.payload);
    stored.packet.payload.length = length as u16;
    stored.version = version;
}
