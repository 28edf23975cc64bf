// The program `settle`: what the balancing book does, from the command line.
#![tactic(auto)]

mod arguments;
mod help;
mod month_cards;
mod price_file;
mod prices;
mod prices_report;
mod quote_report;
mod request;

use arguments::{Command, read_command};
use balancing::SelfBalancing;
use quote::Quote;
use request::{Choice, Request};
use std::process::ExitCode;
use std::{env, io};

fn run_quote(rt: &HostRuntime, request: &Request) -> io::Result<()> {
    // A match, since the two options are of two types: each arm calls the quote that is made for its own.
    let quote = match request.choice {
        Choice::Monthly(option) => Quote::new(&request.statement, &option, &request.prices),
        Choice::SelfBalancing => Quote::new(&request.statement, &SelfBalancing, &request.prices),
    };
    quote_report::print_quote(rt, request, &quote)
}

/// Does what is asked for.
fn run(rt: &HostRuntime, command: &Command<'_>) -> io::Result<ExitCode> {
    match command {
        Command::Quote(request) => run_quote(rt, request)?,
        Command::Prices(file, layout) => return prices::run_prices(rt, file, *layout),
        Command::Help => help::print_help(rt)?,
        Command::Version => help::print_version(rt)?,
    }
    Ok(ExitCode::SUCCESS)
}

fn main(rt: HostRuntime) -> io::Result<ExitCode> {
    let words: Vec<String> = env::args(&rt)?.skip(1).collect(rt.alloc())?;
    // A match, and no `?`: an error from `main` is printed in other words.
    match read_command(words.as_slice()) {
        Ok(command) => run(&rt, &command),
        Err(why) => {
            eprintln!(rt; "settle: {why}")?;
            Ok(ExitCode::FAILURE)
        }
    }
}
