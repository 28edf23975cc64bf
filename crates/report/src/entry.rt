// Prints a call with its answer.
use crate::answer::Answer;
use crate::journal::Entry;
use crate::words::InWords;
use std::io;

/// A line for the call and its answer, and another where the tally could not count it.
pub fn print_entry(rt: &HostRuntime, entry: &Entry) -> io::Result<()> {
    let words = InWords { call: entry.call };
    let answer = Answer {
        result: entry.answer,
    };
    println!(rt; "  {words} -> {answer}")?;
    entry
        .counted
        .or_else(|why| println!(rt; "  NOT COUNTED: {why}"))
}
