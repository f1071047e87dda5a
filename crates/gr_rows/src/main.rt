//! Makes the calls of the rows of standard input, one JSON object a line, and writes how many of them
//! answered as the row says, after a line for each that didn't.
//!
//! A row has the words of the command line, the source, and the status and output that are due. The source
//! is a text, or pieces of text each with the number of times that it is repeated, or bytes in hexadecimal.
//! Where it says so, one read gives, and one write takes, so many bytes, and the read or the write with a number
//! fails. Or a row has a program, which is printed, read back and printed again.
#![tactic(auto)]

mod printed;
mod row;

use crate::printed::is_read_back;
use crate::row::Row;
use gr_reduce::{Reducer, Reducers};
use gr_round::NoGate;
use gr_top::top;
use serde_json::Value;
use std::alloc::{AllocError, Global};
use std::io::{BufRead, BufReader};
use std::thread::Threads;

/// Whether the call answers as the row says.
fn agrees<R: Threads + Sync>(rt: &R, alloc: Global, row: Row, reducers: Reducers) -> bool {
    let mut source = row.source;
    let mut sink = row.sink;
    let end = top(
        rt,
        alloc,
        row.words.as_slice(),
        reducers,
        &mut source,
        &mut sink,
        &NoGate,
    );
    end.status as u64 == row.status && sink.bytes() == row.output.as_bytes()
}

fn main(rt: HostRuntime) -> anyhow::Result<()> {
    let alloc = rt.alloc();
    let reducers = Reducers::new([
        Reducer::new(0, |one, other| one.wrapping_add(other)),
        Reducer::new(1, |one, other| one.min(other)),
        Reducer::new(2, |one, other| one.max(other)),
        Reducer::new(3, |one, other| one | other),
        Reducer::new(4, |one, other| one & other),
        Reducer::new(5, |one, other| one ^ other),
        Reducer::new(6, |one, _| one),
        Reducer::new(7, |_, other| other),
    ]);
    let input = BufReader::new(alloc, rt.stdin())?;
    let mut agreed = 0u64;
    let mut made = 0u64;
    for line in input.lines(alloc) {
        let line = line?;
        let value = Value::from_str(alloc, line.as_str())?;
        made = made.saturating_add(1);
        let is_as_it_says = match value.get("program").and_then(Value::as_str) {
            Some(text) => is_read_back(alloc, text.as_bytes())?,
            None => match row::read_row(alloc, &value)? {
                Some(row) => agrees(&rt, alloc, row, reducers),
                None => false,
            },
        };
        if is_as_it_says {
            agreed = agreed.saturating_add(1);
        } else {
            println!(rt; "not as it says: {line}")?;
        }
    }
    println!(rt; "{agreed} of {made} rows agree")?;
    Ok(())
}
