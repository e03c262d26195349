// Fields where they are used.
ghost use Rattle.std.specs.Prelude.{◌≡◌};
ghost use Rattle.token.specs.Stands.{token_of};
ghost use Rattle.source.specs.Names.{number_of, number_of};
ghost use Rattle.source.specs.Using.{bare as bare_of, header_for, field_for, field_named, has_room, has_room_for, past as past_at, behind_name, member as member_at, in_field as in_field_at};
ghost use Rattle.source.specs.State as state;
ghost use Rattle.source.specs.Stands.{names_of, seen_of, part_of, purpose_of, in_field_of};
ghost use Rattle.source.specs.Does.{Does};

use crate::declaring::is_out;
use crate::fault::Fault;
use crate::looks::{expect, is_sign, word};
use crate::lookup::{field, only};
use crate::phase::{
    BodyPhase, Choosing, FieldPhase, Goal, Meaning, Part, Phase, Purpose, Relation, RoutePhase,
};
use crate::seen::{Names, Seen};
use crate::tabling::behind_list;
use program::action::Operand;
use program::field::FieldNo;
use program::headers::HeaderNo;
use token::token::{Sign, Token};

impl Names {
    // A bare name: `out`, or the one field of that name.
    fn bare(&self, word: &[u8]) -> Option<FieldNo>
        ensures { number_of result ≡ bare_of (names_of self.now) word.now }
    {
        if is_out(word) {
            return Some(FieldNo { at: 0 });
        }
        only(&self.fields, word)
    }

    // The header of a name, if it is this one.
    fn this_header(&self, header: HeaderNo, word: &[u8]) -> Option<HeaderNo>
        ensures { number_of result ≡ header_for (state.By header.at) (names_of self.now) word.now }
    {
        self.header(word).filter(|found| found.at == header.at)
    }

    // The header that a name stands for: in `by` only the choosing one.
    fn header_for(&self, purpose: Purpose, word: &[u8]) -> Option<HeaderNo>
        ensures { number_of result ≡ header_for (purpose_of purpose) (names_of self.now) word.now }
    {
        match purpose {
            Purpose::By(header) => self.this_header(header, word),
            _ => self.header(word),
        }
    }

    // The field that a bare name stands for: in `by` only one of the choosing header.
    fn field_for(&self, purpose: Purpose, word: &[u8]) -> Option<FieldNo>
        ensures { number_of result ≡ field_for (purpose_of purpose) (names_of self.now) word.now }
    {
        match purpose {
            Purpose::By(header) => field(&self.fields, header, word),
            _ => self.bare(word),
        }
    }
}

impl Seen {
    pub fn field_named(&mut self, purpose: Purpose, x: Token<'_>) -> Result<Phase, Fault>
        ensures { Does (field_named (purpose_of purpose) (seen_of self.old) (token_of x.entry)) result self.new }
    {
        let word = word(x)?;
        let header = self.names.header_for(purpose, word);
        let field = self.names.field_for(purpose, word);
        let meaning = Meaning {
            header,
            field,
            at: x.at,
        };
        Ok(Phase::InField(purpose, FieldPhase::Behind(meaning)))
    }

    fn has_room(&self, part: Part) -> bool
        ensures { result ≡ has_room (part_of part) (seen_of self.now) }
    {
        match part {
            Part::Looks => self.tables.looks.len() < 4,
            Part::Sets => self.tables.sets.len() < 8,
        }
    }

    // A list of a table has room for a field.
    fn has_room_for(&self, purpose: Purpose) -> bool
        ensures { result ≡ has_room_for (purpose_of purpose) (seen_of self.now) }
    {
        match purpose {
            Purpose::Listed(part) => self.has_room(part),
            _ => true,
        }
    }

    // A field of a list is there: another one follows, or the list ends.
    fn listed(&mut self, part: Part, field: FieldNo, x: Token<'_>) -> Result<Phase, Fault>
        ensures { Does (past_at (state.Listed (part_of part)) field.at (seen_of self.old) (token_of x.entry)) result self.new }
    {
        if is_sign(x, Sign::Comma) {
            self.add_listed(part, field)?;
            return Ok(Phase::InField(Purpose::Listed(part), FieldPhase::Named));
        }
        expect(x, Sign::Semicolon)?;
        self.add_listed(part, field)?;
        Ok(Phase::InTable(behind_list(part)))
    }

    // What stands behind a field.
    fn past(&mut self, purpose: Purpose, field: FieldNo, x: Token<'_>) -> Result<Phase, Fault>
        ensures { Does (past_at (purpose_of purpose) field.at (seen_of self.old) (token_of x.entry)) result self.new }
    {
        match purpose {
            Purpose::By(header) => {
                expect(x, Sign::Open)?;
                self.set_by(header, field);
                Ok(Phase::InRoute(RoutePhase::ChoiceValue(Choosing { header, count: 0 })))
            }
            Purpose::Listed(part) => self.listed(part, field, x),
            Purpose::Target { verb, at } => {
                expect(x, Sign::Is)?;
                Ok(Phase::InBody(BodyPhase::Value(Goal::Change { verb, field, at })))
            }
            Purpose::Tested { at } => {
                if is_sign(x, Sign::Equals) {
                    return Ok(Phase::InBody(BodyPhase::Value(Goal::Ask {
                        relation: Relation::Equals,
                        field,
                        at,
                    })));
                }
                expect(x, Sign::Less)?;
                Ok(Phase::InBody(BodyPhase::Value(Goal::Ask {
                    relation: Relation::Less,
                    field,
                    at,
                })))
            }
            Purpose::Operand(goal) => self.settle(goal, Operand::Field(field), x),
        }
    }

    // A name in front of a dot is a header's, and else a field's.
    fn behind_name(
        &mut self,
        purpose: Purpose,
        meaning: Meaning,
        x: Token<'_>,
    ) -> Result<Phase, Fault>
        ensures { Does (behind_name (purpose_of purpose) (number_of meaning.header) (number_of meaning.field) meaning.at (seen_of self.old) (token_of x.entry)) result self.new }
    {
        let at = meaning.at;
        if is_sign(x, Sign::Dot) {
            let header = meaning.header.ok_or(Fault::Name { at })?;
            if !self.has_room_for(purpose) {
                return Err(Fault::Count { at });
            }
            return Ok(Phase::InField(purpose, FieldPhase::Member(header)));
        }
        let field = meaning.field.ok_or(Fault::Name { at })?;
        if !self.has_room_for(purpose) {
            return Err(Fault::Count { at });
        }
        self.past(purpose, field, x)
    }

    fn member(&mut self, purpose: Purpose, header: HeaderNo, x: Token<'_>) -> Result<Phase, Fault>
        ensures { Does (member_at (purpose_of purpose) header.at (seen_of self.old) (token_of x.entry)) result self.new }
    {
        let word = word(x)?;
        let field = field(&self.names.fields, header, word).ok_or(Fault::Name { at: x.at })?;
        Ok(Phase::InField(purpose, FieldPhase::Past(field)))
    }

    pub fn in_field(
        &mut self,
        purpose: Purpose,
        phase: FieldPhase,
        x: Token<'_>,
    ) -> Result<Phase, Fault>
        ensures { Does (in_field_at (purpose_of purpose) (in_field_of phase) (seen_of self.old) (token_of x.entry)) result self.new }
    {
        match phase {
            FieldPhase::Named => self.field_named(purpose, x),
            FieldPhase::Behind(meaning) => self.behind_name(purpose, meaning, x),
            FieldPhase::Member(header) => self.member(purpose, header, x),
            FieldPhase::Past(field) => self.past(purpose, field, x),
        }
    }
}
