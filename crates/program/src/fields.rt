// Fields of a packet, and their widths, by the numbers of the fields.
ghost use Rattle.std.specs.Prelude.{◌≡◌, slice_index, slice_set};
ghost use Rattle.model.specs.Packet.{Packet, put};
ghost use Rattle.program.specs.Stands.{over, bits_of};

use crate::field::{FieldNo, Fields, Width, Widths};

impl Fields {
    // What a field holds.
    pub fn get(&self, field: FieldNo) -> u32
        ensures { (base : Packet) → result ≡ over self.now base field.at }
    {
        let at = field.at as usize;
        self.of[at]
    }

    // A field is written, and all else stays.
    pub fn set(&mut self, field: FieldNo, x: u32)
        ensures { (base : Packet) → over self.new base ≡ put field.at x (over self.old base) }
    {
        self.of[field.at as usize] = x;
    }
}

// Alike in code with the fields, but not in what it says: a packet is a function of all numbers, and widths are a row.
impl Widths {
    // The bits of a field.
    pub fn get(&self, field: FieldNo) -> Width
        ensures { result.bits ≡ slice_index (bits_of self.now) field.at }
    {
        let number = field.at as usize;
        self.of[number]
    }

    // A field has so many bits.
    pub fn set(&mut self, field: FieldNo, width: Width)
        ensures { bits_of self.new ≡ slice_set (bits_of self.old) field.at width.bits }
    {
        self.of[field.at as usize] = width;
    }
}
