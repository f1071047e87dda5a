//! Rows of options. Each call of a row `options` is a command line, without the program's name.
use crate::call::lines_of;
use gr_cli::{Command, Options, OptionsError};
use gr_gen::BenchKind;
use serde_json::Value;
use std::alloc::{AllocError, Global};

fn command_word(command: Command) -> &'static str {
    match command {
        Command::Run => "run",
        Command::Check => "check",
        Command::Replay => "replay",
        Command::Bench => "bench",
    }
}

fn kind_word(kind: BenchKind) -> &'static str {
    match kind {
        BenchKind::Words => "words",
        BenchKind::Sets => "sets",
        BenchKind::Queue => "queue",
    }
}

fn flag_word(is_given: bool, word: &'static str) -> &'static str {
    if is_given { word } else { "" }
}

/// The command, each option that has a value, and the flags that are given.
fn options_text(alloc: Global, options: &Options) -> Result<String, AllocError> {
    let numbers = format!(in alloc;
        "cores {} block {} limit {} steps {} slice {} events {} size {} seed {}",
        options.cores,
        options.block,
        options.limit,
        options.steps,
        options.slice,
        options.events,
        options.size,
        options.seed
    )?;
    format!(in alloc;
        "{} {} kind {}{}{}",
        command_word(options.command),
        numbers.as_str(),
        kind_word(options.kind),
        flag_word(options.history, " history"),
        flag_word(options.counts, " counts")
    )
}

fn answer(alloc: Global, line: &str) -> Result<String, AllocError> {
    let mut words = Vec::new(alloc);
    for word in line.split_whitespace() {
        words.push(String::from_str(alloc, word)?)?;
    }
    match gr_cli::options(alloc, words.as_slice()) {
        Ok(options) => options_text(alloc, &options),
        Err(OptionsError::Usage) => String::from_str(alloc, "usage"),
        Err(OptionsError::OutOfMemory) => Err(AllocError),
    }
}

/// What each line gives.
pub fn options(alloc: Global, row: &Value) -> Result<Option<Vec<String>>, AllocError> {
    let Some(lines) = lines_of(alloc, row)? else {
        return Ok(None);
    };
    let mut answers = Vec::new(alloc);
    for line in lines.as_slice() {
        answers.push(answer(alloc, line)?)?;
    }
    Ok(Some(answers))
}
