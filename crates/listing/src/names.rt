// The names by which nodes are printed.

// Fields by their full names, as `out` or `h.f`, and tables, each in the order of their numbers.
#[derive(Drop)]
pub struct Names {
    pub fields: Vec<String>,
    pub tables: Vec<String>,
}
