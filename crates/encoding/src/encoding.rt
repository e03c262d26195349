// The bytes of an update.
ghost use Rattle.std.specs.Prelude.{◌≡◌, false, ◌++◌, length, is_ok, if◌then◌else◌, Err, nat_le};
ghost use Rattle.table.specs.Stands.{edit_of, edits_of};
ghost use Rattle.encoding.specs.declared.unwritten.Unwritten.TheVariants.{TooMany};
ghost use Rattle.encoding.specs.Encoded.{edit_bytes, encoded, counted};
ghost use Rattle.encoding.specs.Appending.{Appends};

use crate::entry::{bytes, entries};
use crate::unwritten::Unwritten;
use table::entry::Edit;

// Appends the bytes of an update. If they are not written, `out` stays as it is.
pub fn encode(out: &mut Vec<u8>, edits: &[Edit]) -> Result<(), Unwritten>
    ensures appends { out.new.items ≡ (if is_ok result then out.old.items ++ encoded (edits_of edits.now) else out.old.items) }
    ensures too_many { result ≡ Err TooMany → counted (edits_of edits.now) ≡ false }
{
    let start = out.len();
    match write(out, edits) {
        Ok(()) => Ok(()),
        Err(why) => {
            out.truncate(start);
            Err(why)
        }
    }
}

// How many tables are given entries, and the edits.
fn write(out: &mut Vec<u8>, edits: &[Edit]) -> Result<(), Unwritten>
    ensures appends { Appends out.old.items out.new.items (encoded (edits_of edits.now)) result }
    ensures too_many { result ≡ Err TooMany → counted (edits_of edits.now) ≡ false }
{
    let count = u8::try_from(edits.len()).map_err(|_| Unwritten::TooMany)?;
    bytes(out, &[count])?;
    for one in edits {
        edit(out, one)?;
    }
    Ok(())
}

// A table, how many entries it is given, and the entries.
fn edit(out: &mut Vec<u8>, edit: &Edit) -> Result<(), Unwritten>
    ensures appends { Appends out.old.items out.new.items (edit_bytes (edit_of edit.now)) result }
    ensures too_many { result ≡ Err TooMany → nat_le (length edit.now.entries.items) 65535 ≡ false }
{
    let count = edit.entries.len();
    if count > 65535 {
        return Err(Unwritten::TooMany);
    }
    let [high, low] = (count as u16).to_be_bytes();
    bytes(out, &[edit.table.at, high, low])?;
    entries(out, &edit.entries)?;
    Ok(())
}
