//! Makes the runs of the rows of standard input, one JSON object a line, and writes what became of each.
//!
//! A row has a name, the numbers of the setup, the text of a program, and for some a schedule: the events in the order in
//! which they are to be made, as `1 take 0`, after each of which all cores meet. What is written of it is each event with
//! what it left, and then the end of each core, the history, and what is still in flight. A row without a schedule is
//! run in rounds, in which each core has a turn, after which all meet. What is written is what was printed and what
//! stands in its objects, and where the row asks for it each event and the end of each core. Of a load so many events
//! are made, each a Run where one may be made and else a Serve; bench/core.py times it with great numbers.
#![tactic(auto)]

mod contents;
mod event_text;
mod lines;
mod load;
mod mark_text;
mod message_text;
mod round_runs;
mod rounds;
mod row;
mod runs;
mod schedules;
mod telling;
mod verdicts;
mod world;

use crate::row::read_row;
use crate::runs::told;
use gr_reduce::{Reducer, Reducers};
use serde_json::Value;
use std::alloc::{AllocError, Global};
use std::io::{BufRead, BufReader};

/// The line that stands for a row which isn't one.
fn no_row(alloc: Global) -> Result<Vec<String>, AllocError> {
    let mut lines = Vec::new(alloc);
    lines.push(String::from_str(alloc, "no row")?)?;
    Ok(lines)
}

/// What became of the row of a line.
fn answer(alloc: Global, line: &str, reducers: &Reducers) -> Result<Vec<String>, AllocError> {
    let Ok(value) = Value::from_str(alloc, line) else {
        return no_row(alloc);
    };
    match read_row(alloc, &value)? {
        Some(row) => told(alloc, &row, reducers),
        None => no_row(alloc),
    }
}

fn main(rt: HostRuntime) -> anyhow::Result<()> {
    let alloc = rt.alloc();
    let reducers = Reducers::new([
        Reducer::new(0, |one, other| one.wrapping_add(other)),
        Reducer::new(1, |one, other| one.min(other)),
        Reducer::new(2, |one, other| one.max(other)),
        Reducer::new(3, |one, other| one | other),
        Reducer::new(4, |one, other| one & other),
        Reducer::new(5, |one, other| one ^ other),
        Reducer::new(6, |one, _| one),
        Reducer::new(7, |_, other| other),
    ]);
    let input = BufReader::new(alloc, rt.stdin())?;
    for line in input.lines(alloc) {
        let line = line?;
        let told = answer(alloc, line.as_str(), &reducers)?;
        for text in told.as_slice() {
            println!(rt; "{text}")?;
        }
    }
    Ok(())
}
