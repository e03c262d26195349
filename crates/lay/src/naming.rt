// The names by which nodes are printed, from what was read.
use listing::names::Names;
use source::name::Name;
use source::seen::Seen;
use std::alloc::{AllocError, Global};
use std::str::from_utf8;

// `out`, then every field as `header.field`; and the tables.
pub(crate) fn names(heap: Global, seen: &Seen) -> Result<Names, AllocError> {
    let mut fields = Vec::new(heap);
    fields.push(String::from_str(heap, "out")?)?;
    for field in &seen.names.fields {
        let mut full = String::new(heap);
        if let Some(header) = seen.names.headers.get(field.header.at as usize) {
            full.push_str(text(&header.name))?;
            full.push_str(".")?;
        }
        full.push_str(text(&field.name))?;
        fields.push(full)?;
    }
    let mut tables = Vec::new(heap);
    for table in &seen.names.tables {
        tables.push(String::from_str(heap, text(&table.name))?)?;
    }
    Ok(Names { fields, tables })
}

// A name has letters and digits only, so it is text.
fn text(name: &Name) -> &str {
    match from_utf8(name.word()) {
        Ok(text) => text,
        Err(_) => "?",
    }
}
