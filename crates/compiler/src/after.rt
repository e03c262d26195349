// What comes behind a header.
ghost use Rattle.std.specs.Prelude.{◌≡◌, ℕ, IfOk};
ghost use Rattle.packet.specs.Stands.{next_of as follow_of, choices_of as choices_in, by_of, after_of};
ghost use Rattle.source.specs.Names.{entries_of, number_of};
ghost use Rattle.source.specs.Stands.{next_of, choices_of as choices_seen};
ghost use Rattle.compiler.specs.Packaging.{follow as follow_in, choices_of, chooser, if_after};

use program::field::FieldNo;
use program::headers::{After, Choice, HeaderNo};
use source::lookup::find;
use source::name::HeaderName;
use source::seen::{Choice as Chosen, Next};
use std::alloc::{AllocError, Global};

// What a choice names.
fn follow(headers: &[HeaderName], next: &Next) -> Option<HeaderNo>
    ensures { follow_of result ≡ follow_in (entries_of headers.now) (next_of next.now) }
{
    match next {
        Next::Header(no) => Some(*no),
        Next::Later { name, at: _ } => find(headers, name.word()),
        Next::Ends | Next::Never { at: _ } => None,
    }
}

// The choices of a header, in the order of the source.
fn choices(
    heap: Global,
    headers: &[HeaderName],
    number: u8,
    chosen: &[Chosen],
) -> Result<Vec<Choice>, AllocError>
    ensures { IfOk result (λ cs. choices_in cs.items ≡ choices_of (entries_of headers.now) number (choices_seen chosen.now)) }
{
    let mut choices = Vec::new(heap);
    for choice in chosen {
        if choice.header.at == number {
            choices.push(Choice {
                value: choice.value,
                next: follow(headers, &choice.next),
            })?;
        }
    }
    Ok(choices)
}

// What comes behind a header whose choosing field this is.
pub(crate) fn after(
    heap: Global,
    headers: &[HeaderName],
    number: u8,
    by: Option<FieldNo>,
    chosen: &[Chosen],
) -> Result<Option<After>, AllocError>
    ensures by { IfOk result (λ a. by_of a ≡ chooser (number_of by)) }
    ensures choices { IfOk result (λ a. after_of a ≡ if_after (number_of by) (choices_of (entries_of headers.now) number (choices_seen chosen.now))) }
{
    match by {
        Some(field) => Ok(Some(After {
            field,
            choices: choices(heap, headers, number, chosen)?,
        })),
        None => Ok(None),
    }
}
