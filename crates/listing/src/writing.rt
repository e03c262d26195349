// The lines of a placement.
ghost use Rattle.std.specs.Prelude.{◌≡◌, ◌^◌, ◌<◌, [], ◌++◌, IfOk, string_bytes, codes, decimal, slice_index_or};
ghost use Rattle.program.specs.Stands.{operand_of, test_of, does_of, node_of, nodes_of};
ghost use Rattle.listing.specs.Stands.{names_of, texts_of};
ghost use Rattle.listing.specs.Listing.{field_text, operand_text, test_text, does_text, line_of, listed};

use crate::names::Names;
use program::action::{Action, Operand, Test};
use program::field::FieldNo;
use program::node::{Does, Node};
use std::alloc::{AllocError, Global};

// A line for each node, in the order of the row.
pub fn listing(heap: Global, names: &Names, nodes: &[Node]) -> Result<String, AllocError>
    ensures { IfOk result (λ s. string_bytes s ≡ listed (names_of names.now) 0 (nodes_of nodes.now)) }
{
    let mut text = String::new(heap);
    let words = Words { heap, names };
    for (at, node) in nodes.iter().enumerate() {
        let line = words.line_of(at, *node)?;
        text.push_str(line.as_str())?;
    }
    Ok(text)
}

// What nodes are told in: the names, and where memory for texts comes from.
#[derive(Clone, Copy)]
struct Words<'a> {
    heap: Global,
    names: &'a Names,
}

impl Words<'_> {
    // The line of a node: its index, its stage, what it does and where it goes on.
    fn line_of(&self, at: usize, node: Node) -> Result<String, AllocError>
        ensures { IfOk result (λ s. string_bytes s ≡ line_of (names_of self.now.names.now) at (node_of node)) }
    {
        match node.does {
            Does::Halt => halt_line(self.heap, at),
            Does::Act { .. } | Does::Look { .. } | Does::Ask { .. } => stage_line(
                self.heap,
                at,
                node.stage,
                self.does_text(node.does)?.as_str(),
            ),
        }
    }

    fn does_text(&self, does: Does) -> Result<String, AllocError>
        ensures { IfOk result (λ s. string_bytes s ≡ does_text (names_of self.now.names.now) (does_of does)) }
    {
        match does {
            Does::Halt => Ok(String::new(self.heap)),
            Does::Act {
                action: Action::Set(field, operand),
                next,
            } => {
                let field = name(&self.names.fields, field.at);
                let operand = self.operand_text(operand)?;
                format!(in self.heap; "set {field} = {operand} then {next}")
            }
            Does::Act {
                action: Action::Add(field, operand),
                next,
            } => {
                let field = name(&self.names.fields, field.at);
                let operand = self.operand_text(operand)?;
                format!(in self.heap; "add {field} = {operand} then {next}")
            }
            Does::Look { table, next } => {
                let table = name(&self.names.tables, table.at);
                format!(in self.heap; "apply {table} then {next}")
            }
            Does::Ask {
                test,
                passed,
                failed,
            } => {
                let test = self.test_text(test)?;
                format!(in self.heap; "if {test} then {passed} else {failed}")
            }
        }
    }

    fn test_text(&self, test: Test) -> Result<String, AllocError>
        ensures { IfOk result (λ s. string_bytes s ≡ test_text (names_of self.now.names.now) (test_of test)) }
    {
        match test {
            Test::Equals(field, operand) => self.compared(field, "==", operand),
            Test::Less(field, operand) => self.compared(field, "<", operand),
        }
    }

    // A field, a relation and an operand.
    fn compared(
        &self,
        field: FieldNo,
        relation: &str,
        operand: Operand,
    ) -> Result<String, AllocError>
        ensures { IfOk result (λ s. string_bytes s ≡ field_text (names_of self.now.names.now) field.at ++ (codes " " ++ (relation.now ++ (codes " " ++ operand_text (names_of self.now.names.now) (operand_of operand))))) }
    {
        let field = name(&self.names.fields, field.at);
        let operand = self.operand_text(operand)?;
        format!(in self.heap; "{field} {relation} {operand}")
    }

    // A field by its name, a number in decimal.
    fn operand_text(&self, operand: Operand) -> Result<String, AllocError>
        ensures { IfOk result (λ s. string_bytes s ≡ operand_text (names_of self.now.names.now) (operand_of operand)) }
    {
        match operand {
            Operand::Field(field) => String::from_str(
                self.heap,
                name(&self.names.fields, field.at),
            ),
            Operand::Number(n) => format!(in self.heap; "{n}"),
        }
    }
}

fn halt_line(heap: Global, at: usize) -> Result<String, AllocError>
    ensures { IfOk result (λ s. string_bytes s ≡ codes "node " ++ (decimal at ++ codes ": halt\n")) }
{
    format!(in heap; "node {at}: halt\n")
}

fn stage_line(heap: Global, at: usize, stage: u16, does: &str) -> Result<String, AllocError>
    ensures { IfOk result (λ s. string_bytes s ≡ codes "node " ++ (decimal at ++ (codes " stage " ++ (decimal stage ++ (codes ": " ++ (does.now ++ codes "\n")))))) }
{
    format!(in heap; "node {at} stage {stage}: {does}\n")
}

// The name of a number; one that has none is printed as nothing.
fn name(names: &[String], at: u8) -> &str
    ensures { result.now ≡ slice_index_or (texts_of names.now) at [] }
{
    names.get(at as usize).map_or("", String::as_str)
}
