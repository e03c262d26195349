// A program done from top to bottom, over its statements as they were read.
ghost use Rattle.std.specs.Prelude.{◌≡◌, ℕ, ◌<◌, ◌≤◌, true, length};
ghost use Rattle.model.specs.Meaning.{means};
ghost use Rattle.model.specs.Packet.{Packet};
ghost use Rattle.model.specs.Statements.{paths_at, program_of};
ghost use Rattle.program.specs.Stands.{over, declarations_of, statements_of};
ghost use Rattle.table.specs.Stands.{tables_of};

use program::acting::{act, passes};
use program::declarations::Declarations;
use program::field::Fields;
use program::jumping::landing;
use program::statement::{Kind, Statement};
use table::lookup::apply;
use table::store::Tables;

// What the program makes of a packet's fields, with the newest tables.
pub fn evaluate(
    fields: &mut Fields,
    declarations: &Declarations,
    tables: &Tables,
    statements: &[Statement],
)
    ensures { (base : Packet) (end : ℕ) → over fields.new base ≡ means (declarations_of declarations.now) (program_of end (statements_of statements.now)) (tables_of tables.now true) (over fields.old base) }
{
    let mut at = 0usize;
    // By index: a jump passes over statements.
    while at < statements.len() {
        at = advance(fields, declarations, tables, statements, at);
    }
}

// One statement is done; gives the index at which the program goes on.
fn advance(
    fields: &mut Fields,
    declarations: &Declarations,
    tables: &Tables,
    statements: &[Statement],
    at: usize,
) -> usize
    requires { at < length statements.now }
    ensures forward { at < result }
    ensures within { result ≤ length statements.now }
    ensures same { (base : Packet) (end : ℕ) → means (declarations_of declarations.now) (paths_at end (statements_of statements.now) result) (tables_of tables.now true) (over fields.new base)
        ≡ means (declarations_of declarations.now) (paths_at end (statements_of statements.now) at) (tables_of tables.now true) (over fields.old base) }
{
    let statement = statements[at];
    let count = statements.len();
    match statement.kind {
        Kind::Act(action) => {
            act(fields, declarations, action);
            at + 1
        }
        Kind::Apply(table) => {
            let seen = *fields;
            apply(fields, &seen, declarations, tables, table, true);
            at + 1
        }
        Kind::If { test, past } => {
            if passes(fields, test) {
                at + 1
            } else {
                landing(count, at, past)
            }
        }
        Kind::Skip { past } => landing(count, at, past),
    }
}
