// The program `storyteller`: tells the built-in story of the balancing book.
#![tactic(auto)]

use std::io;
use std::process::ExitCode;

fn main(rt: HostRuntime) -> io::Result<ExitCode> {
    story::tell(&rt)
}
