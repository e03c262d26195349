// The switch as a program: frames in, frames out, as a stream.
#![tactic(auto)]

mod streaming;

use console::command::Command;
use console::ending::status;
use console::failure::Failure;
use console::reading::open;
use console::writing::write;
use std::process::ExitCode;
use streaming::stream;

const HELP: &str = "\
usage: switch_line [FILE]
Reads frames from FILE, or from standard input, and writes a frame for each answer.
  --help     print this text
  --version  print the version
";

fn main(rt: HostRuntime) -> ExitCode {
    status(&rt, "switch_line", run(&rt))
}

fn run(rt: &HostRuntime) -> Result<(), Failure> {
    match Command::read(rt, "switch_line")? {
        Command::Help => write(rt, HELP.as_bytes()),
        Command::Version => write(rt, b"switch_line 0.1.0\n"),
        Command::Run(None) => stream(rt, &mut rt.stdin()),
        Command::Run(Some(path)) => stream(rt, &mut open(rt, path)?),
    }
}
