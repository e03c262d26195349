// What the command line asks for.
ghost use Rattle.std.specs.Prelude.{◌≡◌, ◌⊎◌, true, false, Option, IfOk, IfErr, MatchResult};
ghost use Rattle.console.specs.Asking.{Word, asked};

use crate::failure::Failure;
use std::env;

#[derive(Drop)]
pub enum Command {
    Help,
    Version,
    // The program's work, on the file of this name or else on standard input.
    Run(Option<String>),
}

impl Command {
    // What the program of this name is asked for, by one word at most.
    pub fn read(rt: &HostRuntime, program: &'static str) -> Result<Command, Failure>
        ensures ok { IfOk result (λ c. (word : Option Word) × (c ≡ asked word)) }
        ensures err { IfErr result (λ e. ((error : _) × (e ≡ Failure.Arguments error)) ⊎ (e ≡ Failure.TooManyArguments program.entry)) }
    {
        let mut words = env::args(rt).map_err(Failure::Arguments)?;
        let _name = words.next();
        let word = words.next();
        let more = words.next();
        Command::of(word, more.is_some(), program)
    }

    // What one word asks for, or none; more words are refused.
    pub fn of(word: Option<String>, more: bool, program: &'static str) -> Result<Command, Failure>
        ensures { MatchResult result (λ c. (more ≡ false) × (c ≡ asked word)) (λ e. (more ≡ true) × (e ≡ Failure.TooManyArguments program.entry)) }
    {
        if more {
            return Err(Failure::TooManyArguments(program));
        }
        Ok(Command::asked(word))
    }

    fn asked(word: Option<String>) -> Command
        ensures { result ≡ asked word }
    {
        match word.as_deref() {
            Some("--help") => Command::Help,
            Some("--version") => Command::Version,
            _ => Command::Run(word),
        }
    }
}
