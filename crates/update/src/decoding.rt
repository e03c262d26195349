// Decoding an update.
ghost use Rattle.std.specs.Prelude.{◌≡◌, vec_len, MatchResult};
ghost use Rattle.program.specs.Stands.{declarations_of};
ghost use Rattle.table.specs.Stands.{edits_of};
ghost use Rattle.update.specs.Decoded.{Taken};
ghost use Rattle.update.specs.Decoding.{decoded};
ghost use Rattle.update.specs.Stands.{Refuses};

use crate::cursor::Cursor;
use crate::fault::Fault;
use program::declarations::Declarations;
use std::alloc::Global;
use table::entry::Edit;

// The edits of an update against what a program declares, or the first fault in its bytes.
pub fn decode(heap: Global, declarations: &Declarations, bytes: &[u8]) -> Result<Vec<Edit>, Fault>
    ensures { MatchResult result
        (λ edits. decoded (declarations_of declarations.now) (vec_len declarations.now.tables) bytes.now ≡ Taken (edits_of edits.items))
        (λ fault. Refuses fault (decoded (declarations_of declarations.now) (vec_len declarations.now.tables) bytes.now)) }
{
    let mut cursor = Cursor { rest: bytes, at: 0 };
    let count = cursor.byte()?;
    let edits = cursor.edits(heap, declarations, count)?;
    if cursor.rest.len() > 0 {
        return Err(Fault::LeftOver(cursor.at));
    }
    Ok(edits)
}
