// Which header comes next.
ghost use Rattle.std.specs.Prelude.{◌≡◌, ◌<◌, true, ◌==◌};
ghost use Rattle.std.specs.List.{find};
ghost use Rattle.program.specs.declared.headers.Choice.{Choice};
ghost use Rattle.packet.specs.Header.{chosen as chosen_in, comes as comes_in};
ghost use Rattle.packet.specs.Stands.{fields_of, next_of, choices_of, header_of};

use program::field::Fields;
use program::headers::{Choice, Header, HeaderNo};

// Whether the header that comes next is this one.
pub(crate) fn comes(next: Option<HeaderNo>, number: usize) -> bool
    ensures value { result ≡ comes_in (next_of next) number }
    ensures within { result ≡ true → number < 8 }
{
    match next {
        Some(header) => header.at as usize == number,
        None => false,
    }
}

// What comes behind a header, by the value of its choosing field.
pub(crate) fn behind(header: &Header, fields: &Fields) -> Option<HeaderNo>
    ensures { next_of result ≡ chosen_in (header_of header.now).choices (fields_of fields.now (header_of header.now).by) }
{
    let after = header.after.as_ref()?;
    chosen(&after.choices, fields.of[after.field.at as usize])
}

// What the first choice with this value says; none is the end.
fn chosen(choices: &[Choice], value: u32) -> Option<HeaderNo>
    ensures { next_of result ≡ chosen_in (choices_of choices.now) value }
{
    first(choices, value)?.next
}

fn first(choices: &[Choice], value: u32) -> Option<Choice>
    ensures { result ≡ find (λ (c : Choice). c.value == value) choices.now }
{
    choices.iter().copied().find(|choice| choice.value == value)
}
