// Reading a source, one token after another.
ghost use Rattle.std.specs.Prelude.{◌≡◌, ◌∷◌, replicate, is_some};
ghost use Rattle.program.specs.Stands.{bits_of};
ghost use Rattle.token.specs.Stands.{token_of};
ghost use Rattle.source.specs.Names.{entries_of};
ghost use Rattle.source.specs.State.{nothing};
ghost use Rattle.source.specs.Reading.{missing as missing_of, unnamed as unnamed_of, operand as operand_at, in_body as in_body_at, complete as complete_at, item as item_at, step as step_at, read_source};
ghost use Rattle.source.specs.Stands.{seen_of, next_of, choices_of, goal_of, in_body_of, phase_of};
ghost use Rattle.source.specs.Does.{Does, Reads};

use crate::block::{Block, TableSet};
use crate::fault::Fault;
use crate::looks::{expect, is_end, is_number, number, says};
use crate::lookup::find;
use crate::name::HeaderName;
use crate::phase::{BodyPhase, Goal, HeaderPhase, Phase, Purpose, RoutePhase, TablePhase};
use crate::seen::{Body, Choice, Names, Next, Routes, Seen, Tables};
use program::action::Operand;
use program::field::{Width, Widths};
use std::alloc::Global;
use token::scanner::Scanner;
use token::token::{Sign, Token};

// The offset of a name that no header has.
fn missing(headers: &[HeaderName], next: &Next) -> Option<usize>
    ensures { result ≡ missing_of (entries_of headers.now) (next_of next.now) }
{
    match next {
        Next::Ends | Next::Header(_) => None,
        Next::Later { name, at } => find(headers, name.word()).is_none().then_some(*at),
        Next::Never { at } => Some(*at),
    }
}

// The offset of the first choice whose header was never declared.
fn unnamed(headers: &[HeaderName], choices: &[Choice]) -> Option<usize>
    ensures { result ≡ unnamed_of (entries_of headers.now) (choices_of choices.now) }
{
    choices
        .iter()
        .find_map(|choice| missing(headers, &choice.next))
}

// The widths of the fields before any is declared: `out` has 8 bits.
fn only_out() -> Widths
    ensures { bits_of result ≡ 8 ∷ replicate 63 0 }
{
    let mut of = [Width { bits: 0 }; 64];
    of[0] = Width { bits: 8 };
    Widths { of }
}

impl Seen {
    // Before the first token.
    fn new(heap: Global) -> Seen
        ensures { seen_of result ≡ nothing }
    {
        Seen {
            names: Names {
                headers: Vec::new(heap),
                fields: Vec::new(heap),
                widths: only_out(),
                tables: Vec::new(heap),
            },
            routes: Routes {
                first: None,
                by: [None; 8],
                choices: Vec::new(heap),
            },
            tables: Tables {
                heap,
                looks: Vec::new(heap),
                sets: Vec::new(heap),
                declared: Vec::new(heap),
            },
            body: Body {
                rows: Vec::new(heap),
                blocks: Vec::new(heap),
                applied: TableSet { bits: 0 },
                begun: false,
                end: 0,
            },
        }
    }

    // A number or a field.
    fn operand(&mut self, goal: Goal, x: Token<'_>) -> Result<Phase, Fault>
        ensures { Does (operand_at (goal_of goal) (seen_of self.old) (token_of x.entry)) result self.new }
    {
        if is_number(x) {
            let number = number(x)?;
            return Ok(Phase::InBody(BodyPhase::Settle(goal, Operand::Number(number))));
        }
        self.field_named(Purpose::Operand(goal), x)
    }

    fn in_body(&mut self, phase: BodyPhase, x: Token<'_>) -> Result<Phase, Fault>
        ensures { Does (in_body_at (in_body_of phase) (seen_of self.old) (token_of x.entry)) result self.new }
    {
        match phase {
            BodyPhase::DoOpen => {
                expect(x, Sign::Open)?;
                self.opened(Block::Do, x.at)
            }
            BodyPhase::Statement => self.statement(x),
            BodyPhase::ApplyName { at } => self.apply_name(at, x),
            BodyPhase::ApplyEnd => {
                expect(x, Sign::Semicolon)?;
                Ok(Phase::InBody(BodyPhase::Statement))
            }
            BodyPhase::Value(goal) => self.operand(goal, x),
            BodyPhase::Settle(goal, operand) => self.settle(goal, operand, x),
            BodyPhase::BehindYes(fork) => self.behind_yes(fork, x),
            BodyPhase::ElseOpen(detour) => {
                expect(x, Sign::Open)?;
                self.opened(Block::No(detour), x.at)
            }
        }
    }

    // A source that was read to its end: each choice names a header, and there are a `first` and a `do`.
    fn complete(&mut self, missing: Option<usize>, at: usize) -> Result<Phase, Fault>
        ensures { Does (complete_at missing at (seen_of self.old)) result self.new }
    {
        if let Some(at) = missing {
            return Err(Fault::Name { at });
        }
        if self.has_first() && self.body.begun {
            Ok(Phase::Item)
        } else {
            Err(Fault::Count { at })
        }
    }

    fn has_first(&self) -> bool
        ensures { result ≡ is_some (seen_of self.now).routes.first }
    {
        self.routes.first.is_some()
    }

    fn ended(&mut self, at: usize) -> Result<Phase, Fault>
        ensures { Does (complete_at (unnamed_of (seen_of self.old).names.headers (seen_of self.old).routes.choices) at (seen_of self.old)) result self.new }
    {
        let missing = unnamed(&self.names.headers, &self.routes.choices);
        self.complete(missing, at)
    }

    fn item(&mut self, x: Token<'_>) -> Result<Phase, Fault>
        ensures { Does (item_at (seen_of self.old) (token_of x.entry)) result self.new }
    {
        let at = x.at;
        if is_end(x) {
            return self.ended(at);
        }
        if says(x, b"header") {
            return Ok(Phase::InHeader(HeaderPhase::HeaderName));
        }
        if says(x, b"first") {
            if self.has_first() {
                return Err(Fault::Unawaited { at });
            }
            return Ok(Phase::InRoute(RoutePhase::FirstName));
        }
        if says(x, b"after") {
            return Ok(Phase::InRoute(RoutePhase::AfterName));
        }
        if says(x, b"table") {
            return Ok(Phase::InTable(TablePhase::TableName));
        }
        if !says(x, b"do") || self.body.begun {
            return Err(Fault::Unawaited { at });
        }
        self.begin();
        Ok(Phase::InBody(BodyPhase::DoOpen))
    }

    // What a token does in a phase.
    fn step(&mut self, phase: Phase, x: Token<'_>) -> Result<Phase, Fault>
        ensures { Does (step_at (phase_of phase) (seen_of self.old) (token_of x.entry)) result self.new }
    {
        match phase {
            Phase::Item => self.item(x),
            Phase::InHeader(phase) => self.in_header(phase, x),
            Phase::InRoute(phase) => self.in_route(phase, x),
            Phase::InTable(phase) => self.in_table(phase, x),
            Phase::InField(purpose, phase) => self.in_field(purpose, phase, x),
            Phase::InBody(phase) => self.in_body(phase, x),
        }
    }
}

// What a source declares and does.
pub fn read(heap: Global, source: &[u8]) -> Result<Seen, Fault>
    ensures { Reads (read_source source.now) result }
{
    let mut seen = Seen::new(heap);
    let mut scanner = Scanner::new(source);
    let mut phase = Phase::Item;
    loop {
        let x = scanner.next();
        phase = seen.step(phase, x)?;
        if is_end(x) {
            return Ok(seen);
        }
    }
}
