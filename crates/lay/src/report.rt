// A refusal, for programs on standard output and for people on standard error.
use crate::failure::Failure;
use codes::answer::Answer;
use std::fmt;
use std::str::from_utf8;

// A source, and the name that it is known by.
#[derive(Clone, Copy)]
pub(crate) struct Source<'a> {
    pub(crate) name: &'a str,
    pub(crate) text: &'a [u8],
}

// One line `CODE OFFSET`; then the place by line and column, the line itself with a mark under the place, and what is wrong.
pub(crate) fn tell<W: fmt::Display>(
    rt: &HostRuntime,
    source: Source<'_>,
    answer: Answer,
    words: &W,
) -> Result<(), Failure> {
    let Source { name, text } = source;
    let code = u8::from(answer.code);
    let offset = answer.offset;
    println!(rt; "{code} {offset}")?;
    let Place {
        line,
        column,
        text: shown,
    } = Place::of(text, offset);
    eprintln!(rt; "{name}:{line}:{column}: {words} (code {code}, offset {offset})")?;
    if let Ok(shown) = from_utf8(shown) {
        eprintln!(rt; "    {shown}")?;
        eprint!(rt; "    ")?;
        for _ in 1..column {
            eprint!(rt; " ")?;
        }
        eprintln!(rt; "^")?;
    }
    Ok(())
}

// A place in a source, counted for people: from 1.
#[derive(Clone, Copy)]
struct Place<'a> {
    line: usize,
    column: usize,
    text: &'a [u8],
}

impl Place<'_> {
    fn of(text: &[u8], offset: usize) -> Place<'_> {
        let (before, behind) = text.split_at(offset.min(text.len()));
        let is_end = |byte: &u8| *byte == b'\n';
        let from = before.iter().rposition(is_end).map_or(0, |at| at + 1);
        let rest = behind.iter().position(is_end).unwrap_or(behind.len());
        Place {
            line: before
                .iter()
                .filter(|byte| is_end(byte))
                .count()
                .saturating_add(1),
            column: offset.saturating_sub(from).saturating_add(1),
            text: &text[from..before.len() + rest],
        }
    }
}
