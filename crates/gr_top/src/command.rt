//! The words of the command line.
ghost use Rattle.std.specs.Prelude.{◌≡◌, IfOk, IfSome};
ghost use Rattle.gr_cli.specs.Options.{IsWithinLimits};
ghost use Rattle.gr_top.specs.Commands.{asked as asked_of, is_read as reads_source, is_replay as replays, limit_of, setup_of};

use gr_cli::{Command, Options, OptionsError, options};
use gr_io::{MAX_PROGRAM, MAX_REPLAY};
use gr_machine::Setup;
use std::alloc::{AllocError, Global};

/// The options of the words; none where they are no command line.
pub(crate) fn asked(alloc: Global, words: &[String]) -> Result<Option<Options>, AllocError>
    ensures options { IfOk result (λ options. options ≡ asked_of words.now) }
    ensures limits { IfOk result (λ options. IfSome options IsWithinLimits) }
{
    let read = options(alloc, words);
    match read {
        Ok(options) => Ok(Some(options)),
        Err(OptionsError::Usage) => Ok(None),
        Err(OptionsError::OutOfMemory) => Err(AllocError),
    }
}

/// Whether the command reads the source; a bench makes its own text.
pub(crate) fn is_read(command: Command) -> bool
    ensures { result ≡ reads_source command }
{
    match command {
        Command::Bench => false,
        _ => true,
    }
}

/// Whether the command replays a history.
pub(crate) fn is_replay(command: Command) -> bool
    ensures { result ≡ replays command }
{
    match command {
        Command::Replay => true,
        _ => false,
    }
}

/// The most bytes that the source may hold.
pub(crate) fn source_limit(command: Command) -> u64
    ensures { result ≡ limit_of command }
{
    match command {
        Command::Replay => MAX_REPLAY,
        Command::Run | Command::Check | Command::Bench => MAX_PROGRAM,
    }
}

/// The numbers of a run.
pub(crate) fn setup(options: &Options) -> Setup
    ensures { result ≡ setup_of options.now }
{
    Setup {
        cores: options.cores,
        block: options.block,
        limit: options.limit,
        steps: options.steps,
        events: options.events,
    }
}
