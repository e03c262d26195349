// Reads a source and prints its nodes and stages, or why it is refused.
#![tactic(auto)]

mod failure;
mod naming;
mod report;

use codes::answer::Answer;
use codes::code::Code;
use console::command::Command;
use console::ending::status;
use console::failure::Failure as Common;
use console::writing::write;
use failure::Failure;
use listing::writing::listing;
use placement::{Fault as Misplaced, place};
use program::node::Node;
use report::{Source, tell};
use source::reading::read;
use source::seen::Seen;
use std::io::Read;
use std::process::ExitCode;
use std::{fmt, fs};

const HELP: &str = "\
usage: lay [FILE]
Reads a source from FILE, or from standard input, and prints its nodes and stages.
A source that is refused gives a line with its code and offset, and status 1.
  --help     print this text
  --version  print the version
";

fn main(rt: HostRuntime) -> ExitCode {
    status(&rt, "lay", run(&rt))
}

fn run(rt: &HostRuntime) -> Result<(), Failure> {
    match Command::read(rt, "lay")? {
        Command::Help => Ok(write(rt, HELP.as_bytes())?),
        Command::Version => Ok(write(rt, b"lay 0.1.0\n")?),
        Command::Run(None) => {
            let text = input(rt)?;
            told(
                rt,
                Source {
                    name: "standard input",
                    text: &text,
                },
            )
        }
        Command::Run(Some(path)) => {
            let text = fs::read(rt, path.as_str()).map_err(Failure::Open)?;
            told(
                rt,
                Source {
                    name: path.as_str(),
                    text: &text,
                },
            )
        }
    }
}

// The source is read whole, then it is taken apart.
fn told(rt: &HostRuntime, source: Source<'_>) -> Result<(), Failure> {
    match read(rt.alloc(), source.text) {
        Ok(seen) => placed(rt, source, &seen),
        Err(fault) => refused(rt, source, fault.answer(), &fault),
    }
}

fn input(rt: &HostRuntime) -> Result<Vec<u8>, Common> {
    let mut text = Vec::new(rt.alloc());
    rt.stdin().read_to_end(&mut text).map_err(Common::Input)?;
    Ok(text)
}

fn placed(rt: &HostRuntime, source: Source<'_>, seen: &Seen) -> Result<(), Failure> {
    let end = u32::try_from(seen.body.end).map_err(|_| Failure::TooLong)?;
    match place(rt.alloc(), &seen.body.rows, end) {
        Ok(nodes) => shown(rt, seen, &nodes),
        Err(Misplaced::NoMemory) => Err(Common::Memory.into()),
        Err(Misplaced::NoRoom(offset)) => refused(
            rt,
            source,
            Answer {
                code: Code::Stage,
                offset: offset as usize,
            },
            &"this needs a stage past the last, or is one node too many",
        ),
    }
}

fn refused<W: fmt::Display>(
    rt: &HostRuntime,
    source: Source<'_>,
    answer: Answer,
    words: &W,
) -> Result<(), Failure> {
    tell(rt, source, answer, words)?;
    Err(Failure::Refused)
}

fn shown(rt: &HostRuntime, seen: &Seen, nodes: &[Node]) -> Result<(), Failure> {
    let heap = rt.alloc();
    let names = naming::names(heap, seen)?;
    Ok(write(rt, listing(heap, &names, nodes)?.as_bytes())?)
}
