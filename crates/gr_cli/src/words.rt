//! From words to options.
ghost use Rattle.std.specs.Prelude.{◌≡◌, IfErr, IfOk, None, Some, map, string_bytes, true};
ghost use Rattle.clap.specs.Words.{kind_of};
ghost use Rattle.gr_cli.specs.declared.error.OptionsError.TheVariants as error;
ghost use Rattle.gr_cli.specs.ClapWords.{IsMatchOf, refusal_of};
ghost use Rattle.gr_cli.specs.Options.{IsWithinLimits, is_refused, options_of};

use crate::arguments::simple_command;
use crate::error::OptionsError;
use crate::settings::Options;
use crate::values::values;
use clap::error::ErrorKind;
use clap::{ArgMatches, Error};
use std::alloc::Global;

/// What a fault of `clap` is to the caller.
fn refusal(fault: &Error) -> OptionsError
    ensures { result ≡ refusal_of (kind_of fault.now) }
{
    match fault.kind() {
        ErrorKind::OutOfMemory => OptionsError::OutOfMemory,
        _ => OptionsError::Usage,
    }
}

/// The matches of the words, which say the word of each argument.
fn matches_in<'a>(alloc: Global, words: &'a [String]) -> Result<ArgMatches<'a>, OptionsError>
    ensures found { IfOk result (IsMatchOf (map string_bytes words.entry.now)) }
    ensures usage { IfErr result (λ fault.
        fault ≡ error.Usage → is_refused (map string_bytes words.entry.now) ≡ true) }
{
    let command = simple_command(alloc)?;
    match command.try_get_matches_from(words) {
        Ok(matches) => Ok(matches),
        Err(fault) => {
            let refusal = refusal(&fault);
            Err(refusal)
        }
    }
}

/// The options that the words of a command line give. The words begin after the program's name.
///
/// # Errors
///
/// `Usage` exactly where the words give none: an unknown option, an option that is used twice or has
/// no value, not one command, or a value that is none of its option's. Every option is taken and
/// tested with every command. `OutOfMemory` where there is no memory to read them.
#[tactic(auto, unfolding(crate::specs::Options::options_of))]
pub fn options(alloc: Global, words: &[String]) -> Result<Options, OptionsError>
    ensures given { IfOk result (λ options. options_of (map string_bytes words.now) ≡ Some options) }
    ensures usage { IfErr result (λ fault.
        fault ≡ error.Usage → options_of (map string_bytes words.now) ≡ None) }
    ensures limits { IfOk result IsWithinLimits }
{
    let matches = matches_in(alloc, words)?;
    match values(&matches) {
        Some(options) => Ok(options),
        None => Err(OptionsError::Usage),
    }
}
