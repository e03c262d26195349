// Names, and the numbers that they stand for.
use few::few::Few;
use program::field::{FieldNo, No};
use program::headers::HeaderNo;

// A name of at most 24 characters.
#[derive(Clone, Copy)]
pub struct Name {
    pub chars: Few<u8, 24>,
}

// A name, and the number that it stands for.
#[derive(Clone, Copy)]
pub struct Named<const N: u8> {
    pub name: Name,
    pub no: No<N>,
}

pub type HeaderName = Named<8>;

pub type TableName = Named<32>;

// A field's name, its header, and its number.
#[derive(Clone, Copy)]
pub struct FieldName {
    pub name: Name,
    pub header: HeaderNo,
    pub no: FieldNo,
}
