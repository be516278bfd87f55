//! Texts for the user, and their exit statuses.
ghost use Rattle.std.specs.Prelude.{◌≡◌, ◌≢◌};
ghost use Rattle.std.specs.Process.{exit_status};
ghost use Rattle.clap.specs.Values.{kind_of};

use clap::error::ErrorKind;
use std::fmt::Display;
use std::io::{Eprint, Print};
use std::process::ExitCode;

/// The status of wrong words.
const USAGE: u8 = 2;

/// The text that is printed if standard output takes no text.
pub(crate) const NO_OUTPUT: &str = "cannot write the output";

/// The text that is printed if memory is refused.
pub(crate) const NO_MEMORY: &str = "out of memory";

/// Shows a text of `clap`. Wrong words have their status even if standard error does not take the text.
pub(crate) fn show(rt: &(impl Print + Eprint), text: &clap::Error) -> ExitCode
    ensures { kind_of text.now ≢ ErrorKind.DisplayHelp → kind_of text.now ≢ ErrorKind.DisplayVersion
        → exit_status result ≡ 2 }
{
    let shown = text.print(rt);
    if text.use_stderr() {
        return ExitCode::from(USAGE);
    }
    match shown {
        Ok(()) => ExitCode::SUCCESS,
        Err(_) => fail(rt, NO_OUTPUT),
    }
}

/// Prints why something was not done. The status stands even if standard error does not take the text.
pub(crate) fn fail<D: Display + Drop>(rt: &impl Eprint, why: D) -> ExitCode
    ensures { exit_status result ≡ 1 }
{
    let _ = eprintln!(rt; "stridelink: {why}");
    ExitCode::FAILURE
}
