//! The program: reads a task program from standard input and writes to standard output what it is
//! answered. Nothing goes to standard error.
#![tactic(auto)]

ghost use Rattle.std.specs.Prelude.{◌≡◌, ◌≢◌, [], drop, IfOk, IfErr, IsErr, IsOkAnd, OnErr};
ghost use Rattle.std.specs.IoError.{error_kind};
ghost use Rattle.std.specs.Process.{exit_status};
ghost use Rattle.std.specs.Vec.Iter.{into_iter_items};

use gr_io::{StdSink, StdSource};
use gr_reduce::{Reducer, Reducers};
use gr_round::NoGate;
use gr_top::{RunEnd, top};
use std::alloc::{AllocError, Global};
use std::env::Args;
use std::io::ErrorKind;
use std::process::ExitCode;
use std::{env, io};

/// The words of the command line: all of the arguments but the first, which is the program's name.
/// Arguments that are no text are taken as no words at all.
///
/// # Errors
///
/// Want of memory, for the arguments or for the words.
fn words(alloc: Global, args: io::Result<Args>) -> Result<Vec<String>, AllocError>
    ensures all { IfOk args (λ args.
        IfOk result (λ words. words.items ≡ drop 1 (into_iter_items args))) }
    ensures not_text { IfErr args (λ error. error_kind error ≢ ErrorKind.OutOfMemory
        → IsOkAnd result (λ words. words.items ≡ [])) }
    ensures memory { IfErr args (λ error.
        error_kind error ≡ ErrorKind.OutOfMemory → IsErr result) }
{
    match args {
        Ok(args) => args.skip(1).collect(alloc),
        Err(error) if error.kind() == ErrorKind::OutOfMemory => Err(AllocError),
        Err(_) => Ok(Vec::new(alloc)),
    }
}

/// The status that the program ends with: that of the call, or 6 where memory was wanting for its
/// words.
fn status(end: Result<RunEnd, AllocError>) -> ExitCode
    ensures ended { IfOk end (λ ended. exit_status result ≡ ended.status) }
    ensures memory { OnErr end (exit_status result ≡ 6) }
{
    match end {
        Ok(ended) => ExitCode::from(ended.status),
        Err(AllocError) => ExitCode::from(6),
    }
}

fn main(rt: HostRuntime) -> ExitCode {
    let mut source = StdSource::new(rt.stdin());
    let mut sink = StdSink::new(rt.stdout());
    let words = words(rt.alloc(), env::args(&rt));
    let reducers = Reducers::new([
        Reducer::new(0, |one, other| one.wrapping_add(other)),
        Reducer::new(1, |one, other| one.min(other)),
        Reducer::new(2, |one, other| one.max(other)),
        Reducer::new(3, |one, other| one | other),
        Reducer::new(4, |one, other| one & other),
        Reducer::new(5, |one, other| one ^ other),
        Reducer::new(6, |one, _| one),
        Reducer::new(7, |_, other| other),
    ]);
    status(words.map(|words| {
        top(
            &rt,
            rt.alloc(),
            words.as_slice(),
            reducers,
            &mut source,
            &mut sink,
            &NoGate,
        )
    }))
}
