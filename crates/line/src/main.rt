// The switch as a program: frames in, frames out, as a stream.
#![tactic(auto)]

mod failure;
mod stream;

use console::command::Command;
use console::ending::status;
use console::reading::open;
use console::writing::write;
use failure::Failure;
use std::process::ExitCode;
use stream::stream;

const HELP: &str = "\
usage: line [FILE]
Reads frames from FILE, or from standard input, and writes a frame for each answer.
  --help     print this text
  --version  print the version
";

fn main(rt: HostRuntime) -> ExitCode {
    status(&rt, "line", run(&rt))
}

fn run(rt: &HostRuntime) -> Result<(), Failure> {
    match Command::read(rt, "line")? {
        Command::Help => Ok(write(rt, HELP.as_bytes())?),
        Command::Version => Ok(write(rt, b"line 0.1.0\n")?),
        Command::Run(None) => stream(rt, &mut rt.stdin()),
        Command::Run(Some(path)) => stream(rt, &mut open(rt, path)?),
    }
}
