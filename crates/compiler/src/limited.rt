// What was read of a source, with the limits that it keeps.
ghost use Rattle.std.specs.Prelude.{◌≤◌, vec_len};

use source::seen::Seen;

// At most 63 fields beside `out`, and at most 8 headers.
#[derive(Drop)]
pub(crate) struct Limited {
    pub(crate) seen: Seen,
    ghost fields: { vec_len seen.names.fields ≤ 63 },
    ghost headers: { vec_len seen.names.headers ≤ 8 },
}
