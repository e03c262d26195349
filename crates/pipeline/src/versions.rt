// A program and its tables, in the newest version and in the one before.
use crate::loaded::Loaded;
use table::store::Tables;

// Both versions, told apart by one bit, and the bit of the newest.
#[derive(Drop)]
pub struct Versions {
    pub(crate) loaded: Loaded,
    pub(crate) tables: Tables,
    pub(crate) newest: bool,
}

// One of the two: the newest, or the one before.
#[derive(Clone, Copy)]
pub struct Version<'a> {
    pub loaded: &'a Loaded,
    pub tables: &'a Tables,
    pub newest: bool,
}
