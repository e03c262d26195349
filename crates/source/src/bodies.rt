// Statements and blocks.
ghost use Rattle.std.specs.Prelude.{◌≡◌, ◌∷◌, length, MatchResult};
ghost use Rattle.token.specs.Stands.{token_of};
ghost use Rattle.program.specs.Stands.{operand_of, action_of, test_of};
ghost use Rattle.source.specs.declared.fault.Fault.TheVariants.{Memory};
ghost use Rattle.source.specs.Bodies.{add_row, put_row, set_blocks, set_applied, begin as begin_at, opened as opened_at, innermost, others, behind_row, closing as closing_at, closed as closed_at, statement as statement_at, applying as applying_at, apply_name, change as change_of, ask as ask_of, settle as settle_at, behind_yes as behind_yes_at};
ghost use Rattle.source.specs.Stands.{adds_of, less_of, seen_of, row_of, block_of, fork_of, goal_of, some_block_of};
ghost use Rattle.source.specs.Does.{Does};

use crate::block::{Block, Detour, Fork, TableSet};
use crate::fault::Fault;
use crate::looks::{expect, is_sign, says, word};
use crate::lookup::find;
use crate::phase::{BodyPhase, FieldPhase, Goal, Phase, Purpose, Relation, Verb};
use crate::seen::Seen;
use program::action::{Action, Operand, Test};
use program::field::{FieldNo, TableNo};
use program::statement::{Kind, Statement};
use token::token::{Sign, Token};

// A number of 32 bits, as rows hold them.
fn small(n: usize) -> Result<u32, Fault>
    ensures { MatchResult result (λ m. m ≡ n) (λ f. f ≡ Memory) }
{
    u32::try_from(n).map_err(|_| Fault::Memory)
}

impl Verb {
    fn action(self, field: FieldNo, operand: Operand) -> Action
        ensures { action_of result ≡ change_of (adds_of self) field.at (operand_of operand) }
    {
        match self {
            Verb::Set => Action::Set(field, operand),
            Verb::Add => Action::Add(field, operand),
        }
    }
}

impl Relation {
    fn test(self, field: FieldNo, operand: Operand) -> Test
        ensures { test_of result ≡ ask_of (less_of self) field.at (operand_of operand) }
    {
        match self {
            Relation::Equals => Test::Equals(field, operand),
            Relation::Less => Test::Less(field, operand),
        }
    }
}

impl Seen {
    // Each add_ writes to a row of its own, and says so in a word of its own: one for all would be handed the row, and say nothing of what else was read.
    fn add_row(&mut self, row: Statement) -> Result<(), Fault>
        ensures { MatchResult result (λ _. seen_of self.new ≡ add_row (row_of row) (seen_of self.old)) (λ f. f ≡ Memory) }
    {
        self.body.rows.push(row)?;
        Ok(())
    }

    fn put_row(&mut self, index: usize, row: Statement)
        ensures { seen_of self.new ≡ put_row index (row_of row) (seen_of self.old) }
    {
        if index < self.body.rows.len() {
            self.body.rows[index] = row;
        }
    }

    fn set_applied(&mut self, tables: TableSet)
        ensures { seen_of self.new ≡ set_applied tables.bits (seen_of self.old) }
    {
        self.body.applied = tables;
    }

    pub fn begin(&mut self)
        ensures { seen_of self.new ≡ begin_at (seen_of self.old) }
    {
        self.body.begun = true;
    }

    fn add_block(&mut self, block: Block) -> Result<(), Fault>
        ensures { MatchResult result (λ _. seen_of self.new ≡ set_blocks (block_of block ∷ (seen_of self.old).body.blocks) (seen_of self.old)) (λ f. f ≡ Memory) }
    {
        self.body.blocks.push(block)?;
        Ok(())
    }

    fn pop_block(&mut self) -> Option<Block>
        ensures block { some_block_of result ≡ innermost (seen_of self.old).body.blocks }
        ensures left { seen_of self.new ≡ set_blocks (others (seen_of self.old).body.blocks) (seen_of self.old) }
    {
        self.body.blocks.pop()
    }

    fn count_rows(&self) -> usize
        ensures { result ≡ length (seen_of self.now).body.rows }
    {
        self.body.rows.len()
    }

    // How many statements stand behind the one at an index.
    fn behind_row(&self, index: usize) -> usize
        ensures { result ≡ behind_row index (seen_of self.now) }
    {
        self.count_rows().saturating_sub(index).saturating_sub(1)
    }

    fn depth(&self) -> usize
        ensures { result ≡ length (seen_of self.now).body.blocks }
    {
        self.body.blocks.len()
    }

    // A block is opened, if it isn't the ninth inside one another.
    pub fn opened(&mut self, block: Block, at: usize) -> Result<Phase, Fault>
        ensures { Does (opened_at (block_of block) at (seen_of self.old)) result self.new }
    {
        if self.depth() >= 8 {
            return Err(Fault::Depth { at });
        }
        self.add_block(block)?;
        Ok(Phase::InBody(BodyPhase::Statement))
    }

    // A block ends.
    fn closing(&mut self, block: Option<Block>, at: usize) -> Result<Phase, Fault>
        ensures { Does (closing_at (some_block_of block) at (seen_of self.old)) result self.new }
    {
        let Some(block) = block else {
            return Err(Fault::Unawaited { at });
        };
        match block {
            Block::Do => {
                self.body.end = at;
                Ok(Phase::Item)
            }
            Block::Yes(fork) => {
                let past = small(self.behind_row(fork.index))?;
                self.put_row(fork.index, fork.row(past));
                Ok(Phase::InBody(BodyPhase::BehindYes(fork)))
            }
            Block::No(detour) => {
                let past = small(self.behind_row(detour.index))?;
                self.put_row(detour.index, detour.row(past));
                self.set_applied(detour.applied.union(self.body.applied));
                Ok(Phase::InBody(BodyPhase::Statement))
            }
        }
    }

    fn closed(&mut self, at: usize) -> Result<Phase, Fault>
        ensures { Does (closed_at at (seen_of self.old)) result self.new }
    {
        let block = self.pop_block();
        self.closing(block, at)
    }

    pub fn statement(&mut self, x: Token<'_>) -> Result<Phase, Fault>
        ensures { Does (statement_at (seen_of self.old) (token_of x.entry)) result self.new }
    {
        let at = x.at;
        if is_sign(x, Sign::Close) {
            return self.closed(at);
        }
        if says(x, b"set") {
            return Ok(Phase::InField(
                Purpose::Target {
                    verb: Verb::Set,
                    at,
                },
                FieldPhase::Named,
            ));
        }
        if says(x, b"add") {
            return Ok(Phase::InField(
                Purpose::Target {
                    verb: Verb::Add,
                    at,
                },
                FieldPhase::Named,
            ));
        }
        if says(x, b"apply") {
            return Ok(Phase::InBody(BodyPhase::ApplyName { at }));
        }
        if says(x, b"if") {
            return Ok(Phase::InField(Purpose::Tested { at }, FieldPhase::Named));
        }
        Err(Fault::Unawaited { at })
    }

    // A table is applied at most once on a path.
    fn applying(&mut self, key: usize, at: usize, table: TableNo) -> Result<Phase, Fault>
        ensures { Does (applying_at key at table.at (seen_of self.old)) result self.new }
    {
        if self.body.applied.holds(table) {
            return Err(Fault::Twice { at });
        }
        let applied = self.body.applied.with(table);
        let offset = small(key)?;
        self.add_row(Statement {
            offset,
            kind: Kind::Apply(table),
        })?;
        self.set_applied(applied);
        Ok(Phase::InBody(BodyPhase::ApplyEnd))
    }

    pub fn apply_name(&mut self, key: usize, x: Token<'_>) -> Result<Phase, Fault>
        ensures { Does (apply_name key (seen_of self.old) (token_of x.entry)) result self.new }
    {
        let word = word(x)?;
        let table = find(&self.names.tables, word).ok_or(Fault::Name { at: x.at })?;
        self.applying(key, x.at, table)
    }

    // An operand is there: the statement is complete, or the yes block begins.
    pub fn settle(&mut self, goal: Goal, operand: Operand, x: Token<'_>) -> Result<Phase, Fault>
        ensures { Does (settle_at (goal_of goal) (operand_of operand) (seen_of self.old) (token_of x.entry)) result self.new }
    {
        match goal {
            Goal::Change { verb, field, at } => {
                expect(x, Sign::Semicolon)?;
                let offset = small(at)?;
                self.add_row(Statement {
                    offset,
                    kind: Kind::Act(verb.action(field, operand)),
                })?;
                Ok(Phase::InBody(BodyPhase::Statement))
            }
            Goal::Ask {
                relation,
                field,
                at,
            } => {
                expect(x, Sign::Open)?;
                let offset = small(at)?;
                let fork = Fork {
                    index: self.count_rows(),
                    offset,
                    test: relation.test(field, operand),
                    before: self.body.applied,
                };
                self.add_row(fork.row(0))?;
                self.opened(Block::Yes(fork), x.at)
            }
        }
    }

    // Behind a yes block: `else`, or what follows the if.
    pub fn behind_yes(&mut self, fork: Fork, x: Token<'_>) -> Result<Phase, Fault>
        ensures { Does (behind_yes_at (fork_of fork) (seen_of self.old) (token_of x.entry)) result self.new }
    {
        if !says(x, b"else") {
            return self.statement(x);
        }
        let offset = small(x.at)?;
        let past = small(self.count_rows().saturating_sub(fork.index))?;
        let detour = Detour {
            index: self.count_rows(),
            offset,
            applied: self.body.applied,
        };
        self.put_row(fork.index, fork.row(past));
        self.add_row(detour.row(0))?;
        self.set_applied(fork.before);
        Ok(Phase::InBody(BodyPhase::ElseOpen(detour)))
    }
}
