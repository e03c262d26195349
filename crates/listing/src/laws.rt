// What printing is good for.
ghost use Rattle.listing.specs.Alike.{NeverAlike};

// Two different placements never print alike, if names tell fields apart and tables.
pub fn never_alike_stands() -> u8
    ensures { NeverAlike }
{
    0
}
