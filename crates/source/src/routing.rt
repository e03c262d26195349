// The first header, and the choices behind headers.
ghost use Rattle.std.specs.Prelude.{◌≡◌, ◌+◌, is_some, None, MatchResult};
ghost use Rattle.token.specs.Stands.{token_of};
ghost use Rattle.source.specs.declared.fault.Fault.TheVariants.{Memory};
ghost use Rattle.source.specs.Names.{find, number_of, number_of};
ghost use Rattle.source.specs.Routing.{set_first, set_by, add_choice, has_by, first_name, after_name, choice_value, choice_next, chosen as chosen_at, later as later_of, in_route as in_route_at};
ghost use Rattle.source.specs.Stands.{names_of, seen_of, choice_of, next_of, in_route_of};
ghost use Rattle.source.specs.Does.{Does};

use crate::fault::Fault;
use crate::looks::{expect, expect_word, is_sign, number, says, word};
use crate::lookup::find;
use crate::name::Name;
use crate::phase::{Choosing, FieldPhase, Phase, Purpose, RoutePhase};
use crate::seen::{Choice, Names, Next, Seen};
use program::field::FieldNo;
use program::headers::HeaderNo;
use token::token::{Sign, Token};

impl Names {
    // The header of a name.
    pub fn header(&self, word: &[u8]) -> Option<HeaderNo>
        ensures { number_of result ≡ find (names_of self.now).headers word.now }
    {
        find(&self.headers, word)
    }
}

// A header that is not declared yet.
fn later(word: &[u8], at: usize) -> Next
    ensures { next_of result ≡ later_of word.now at }
{
    match Name::of(word) {
        Some(name) => Next::Later { name, at },
        None => Next::Never { at },
    }
}

impl Seen {
    fn set_first(&mut self, header: HeaderNo)
        ensures { seen_of self.new ≡ set_first header.at (seen_of self.old) }
    {
        self.routes.first = Some(header);
    }

    pub fn set_by(&mut self, header: HeaderNo, field: FieldNo)
        ensures { seen_of self.new ≡ set_by header.at field.at (seen_of self.old) }
    {
        self.routes.by[header.at as usize] = Some(field);
    }

    // Whether a header has a choosing field.
    fn has_by(&self, header: HeaderNo) -> bool
        ensures { result ≡ has_by header.at (seen_of self.now) }
    {
        self.routes.by[header.at as usize].is_some()
    }

    fn add_choice(&mut self, choice: Choice) -> Result<(), Fault>
        ensures { MatchResult result (λ _. seen_of self.new ≡ add_choice (choice_of choice) (seen_of self.old)) (λ f. f ≡ Memory) }
    {
        self.routes.choices.push(choice)?;
        Ok(())
    }

    fn first_name(&mut self, x: Token<'_>) -> Result<Phase, Fault>
        ensures { Does (first_name (seen_of self.old) (token_of x.entry)) result self.new }
    {
        let word = word(x)?;
        let header = self.names.header(word).ok_or(Fault::Name { at: x.at })?;
        self.set_first(header);
        Ok(Phase::InRoute(RoutePhase::FirstEnd))
    }

    fn after_name(&mut self, x: Token<'_>) -> Result<Phase, Fault>
        ensures { Does (after_name (seen_of self.old) (token_of x.entry)) result self.new }
    {
        let word = word(x)?;
        let header = self.names.header(word).ok_or(Fault::Name { at: x.at })?;
        if self.has_by(header) {
            return Err(Fault::Name { at: x.at });
        }
        Ok(Phase::InRoute(RoutePhase::AfterBy(header)))
    }

    // A choice, or the end of the choices.
    fn choice_value(&mut self, choosing: Choosing, x: Token<'_>) -> Result<Phase, Fault>
        ensures { Does (choice_value choosing.header.at choosing.count (seen_of self.old) (token_of x.entry)) result self.new }
    {
        if is_sign(x, Sign::Close) {
            return Ok(Phase::Item);
        }
        let value = number(x)?;
        if choosing.count >= 8 {
            return Err(Fault::Count { at: x.at });
        }
        let one_more = Choosing {
            header: choosing.header,
            count: choosing.count + 1,
        };
        Ok(Phase::InRoute(RoutePhase::ChoiceColon(one_more, value)))
    }

    // A header that is declared must come behind the choosing one.
    fn chosen(
        &mut self,
        choosing: Choosing,
        value: u32,
        word: &[u8],
        at: usize,
        found: Option<HeaderNo>,
    ) -> Result<Phase, Fault>
        ensures { Does (chosen_at choosing.header.at choosing.count value word.now at (number_of found) (seen_of self.old)) result self.new }
    {
        let next = match found {
            Some(next) => {
                if next.at <= choosing.header.at {
                    return Err(Fault::Name { at });
                }
                Next::Header(next)
            }
            None => later(word, at),
        };
        self.add_choice(Choice {
            header: choosing.header,
            value,
            next,
        })?;
        Ok(Phase::InRoute(RoutePhase::ChoiceEnd(choosing)))
    }

    fn choice_next(&mut self, choosing: Choosing, value: u32, x: Token<'_>) -> Result<Phase, Fault>
        ensures { Does (choice_next choosing.header.at choosing.count value (seen_of self.old) (token_of x.entry)) result self.new }
    {
        if says(x, b"end") {
            self.add_choice(Choice {
                header: choosing.header,
                value,
                next: Next::Ends,
            })?;
            return Ok(Phase::InRoute(RoutePhase::ChoiceEnd(choosing)));
        }
        let word = word(x)?;
        let found = self.names.header(word);
        self.chosen(choosing, value, word, x.at, found)
    }

    pub fn in_route(&mut self, phase: RoutePhase, x: Token<'_>) -> Result<Phase, Fault>
        ensures { Does (in_route_at (in_route_of phase) (seen_of self.old) (token_of x.entry)) result self.new }
    {
        match phase {
            RoutePhase::FirstName => self.first_name(x),
            RoutePhase::FirstEnd => {
                expect(x, Sign::Semicolon)?;
                Ok(Phase::Item)
            }
            RoutePhase::AfterName => self.after_name(x),
            RoutePhase::AfterBy(header) => {
                expect_word(x, b"by")?;
                Ok(Phase::InField(Purpose::By(header), FieldPhase::Named))
            }
            RoutePhase::ChoiceValue(choosing) => self.choice_value(choosing, x),
            RoutePhase::ChoiceColon(choosing, value) => {
                expect(x, Sign::Colon)?;
                Ok(Phase::InRoute(RoutePhase::ChoiceNext(choosing, value)))
            }
            RoutePhase::ChoiceNext(choosing, value) => self.choice_next(choosing, value, x),
            RoutePhase::ChoiceEnd(choosing) => {
                expect(x, Sign::Semicolon)?;
                Ok(Phase::InRoute(RoutePhase::ChoiceValue(choosing)))
            }
        }
    }
}
