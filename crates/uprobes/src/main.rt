// The command `uprobes`: what a technician types.
#![tactic(auto)]

mod command;
mod day;
mod explain;
mod inspect;
mod lookup;
mod show;

use std::env;
use std::process::ExitCode;

fn main(rt: HostRuntime) -> anyhow::Result<ExitCode> {
    run(&rt)
}

// A refusal is printed, and ends with status 1. The handle goes to each function beside what it works on:
// the language has no other way to print.
fn run(rt: &HostRuntime) -> anyhow::Result<ExitCode> {
    let mut words: Vec<String> = Vec::new(rt.alloc());
    for word in env::args(rt)? {
        words.push(word)?;
    }
    let [_, command, rest @ ..] = words.as_slice() else {
        return day::day(rt);
    };
    let command = command.as_str();
    if command::asks_help(command, rest) {
        return command::help(rt);
    }
    match command {
        "target" => lookup::target(rt, rest),
        "offset" => lookup::offset(rt, rest),
        "file" => inspect::file(rt, rest),
        "explain" => lookup::explanation(rt, rest),
        other => command::misused(rt, other),
    }
}
