//! Loads for the parts of a core. Each line of standard input is a part, how often it is to work, and for some a
//! second number; what came of it is written in its place. bench/parts.py times it with great numbers.
#![tactic(auto)]

mod call_load;
mod count_load;
mod group_load;
mod packet_load;
mod step_load;
mod unit_load;
mod word_load;

use gr_reduce::{Reducer, Reducers};
use std::alloc::{AllocError, Global};
use std::io::{BufRead, BufReader};

/// The number at a place of a line; 0 where there is none.
fn number(line: &str, at: usize) -> u64 {
    match line.split_whitespace().nth(at) {
        Some(word) => word.parse::<u64>().unwrap_or(0),
        None => 0,
    }
}

/// What came of the load of a line.
fn answer(alloc: Global, line: &str, reducers: &Reducers) -> Result<String, AllocError> {
    let count = number(line, 1);
    let size = number(line, 2);
    match line.split_whitespace().next() {
        Some("units") => unit_load::units(alloc, count),
        Some("indices") => unit_load::indices(alloc, count),
        Some("parts") => unit_load::parts(alloc, count, size),
        Some("calls") => call_load::calls(alloc, count, size, reducers),
        Some("keys") => call_load::keys(alloc, count, size, reducers),
        Some("words") => word_load::words(alloc, count),
        Some("positions") => word_load::positions(alloc, count),
        Some("turns") => word_load::turns(alloc, count),
        Some("steps") => step_load::steps(alloc, count),
        Some("packets") => packet_load::packets(alloc, count, size),
        Some("groups") => group_load::groups(alloc, count),
        Some("enrolments") => count_load::enrolments(alloc, count),
        Some("scopes") => count_load::scopes(alloc, count),
        Some("answers") => count_load::answers(alloc),
        _ => String::from_str(alloc, "no such load"),
    }
}

fn main(rt: HostRuntime) -> anyhow::Result<()> {
    let alloc = rt.alloc();
    let reducers = Reducers::new([
        Reducer::new(0, |one, other| one.wrapping_add(other)),
        Reducer::new(1, |one, other| one.min(other)),
        Reducer::new(2, |one, other| one.max(other)),
        Reducer::new(3, |one, other| one | other),
        Reducer::new(4, |one, other| one & other),
        Reducer::new(5, |one, other| one ^ other),
        Reducer::new(6, |one, _| one),
        Reducer::new(7, |_, other| other),
    ]);
    let input = BufReader::new(alloc, rt.stdin())?;
    for line in input.lines(alloc) {
        let line = line?;
        let answer = answer(alloc, line.as_str(), &reducers)?;
        println!(rt; "{line}: {answer}")?;
    }
    Ok(())
}
