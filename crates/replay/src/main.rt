// Runs recorded cases from the standard input, a line each, and prints the library's answer to each.
//
// A case is a word for the question and then its inputs, bytes in hexadecimal, `-` for no bytes and
// `!` for an input that cannot be read.
#![tactic(auto)]

mod answer;
mod words;

use std::io::{BufRead, BufReader};

fn main(rt: HostRuntime) -> anyhow::Result<()> {
    run(&rt)
}

fn run(rt: &HostRuntime) -> anyhow::Result<()> {
    for line in BufReader::new(rt.alloc(), rt.stdin())?.lines(rt.alloc()) {
        let line = line?;
        let case = words::read_case(rt.alloc(), line.as_str())?;
        answer::answer(rt, &case)?;
    }
    Ok(())
}
