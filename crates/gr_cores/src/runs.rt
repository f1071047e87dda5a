//! What became of a row.
use crate::load::load_told;
use crate::round_runs::rounds_told;
use crate::row::Row;
use crate::schedules::schedule_told;
use gr_accept::Accepted;
use gr_checker::check;
use gr_code::lower;
use gr_parse::parse;
use gr_reduce::Reducers;
use gr_text::tokens;
use std::alloc::{AllocError, Global};

/// The accepted program that a text is, if it is one.
fn accepted(alloc: Global, text: &[u8]) -> Result<Option<Accepted>, AllocError> {
    let read = tokens(alloc, text);
    let Ok(tokens) = read else {
        return Ok(None);
    };
    match parse(alloc, text, &tokens) {
        Ok(program) => Ok(check(alloc, program).ok()),
        Err(_) => Ok(None),
    }
}

/// What became of the run of a program, in the lines that follow.
fn run_told(
    alloc: Global,
    row: &Row,
    program: &Accepted,
    reducers: &Reducers,
    told: &mut Vec<String>,
) -> Result<(), AllocError> {
    let code = lower(alloc, program)?;
    if let Some(events) = row.course.load {
        return load_told(alloc, row, &code, events, reducers, told);
    }
    match &row.schedule {
        Some(events) => schedule_told(
            alloc,
            row,
            program,
            &code,
            events.as_slice(),
            reducers,
            told,
        ),
        None => rounds_told(alloc, row, program, &code, reducers, told),
    }
}

/// What became of a row, in lines.
pub fn told(alloc: Global, row: &Row, reducers: &Reducers) -> Result<Vec<String>, AllocError> {
    let mut told = Vec::new(alloc);
    let name = row.name;
    told.push(format!(in alloc; "== {name}")?)?;
    match accepted(alloc, row.text.as_bytes())? {
        Some(program) => run_told(alloc, row, &program, reducers, &mut told)?,
        None => told.push(String::from_str(alloc, "no program")?)?,
    }
    Ok(told)
}
