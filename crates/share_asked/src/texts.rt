//! Texts of help, and of wrong words.
ghost use Rattle.std.specs.Prelude.{◌≡◌, ◌≢◌, ◌⊎◌, IsOkAnd, MatchResult};
ghost use Rattle.std.specs.Process.{exit_status};
ghost use Rattle.clap.specs.Values.{kind_of};
ghost use Rattle.share_script.specs.declared.script.ScriptFault.TheVariants.{Output};

use clap::error::ErrorKind;
use share_script::ScriptFault;
use std::io::{Eprint, Print};
use std::process::ExitCode;

/// The status of a usage fault.
const USAGE: u8 = 2;

/// Shows a text of `clap`. A wrong word is a usage fault even if standard error does not take the text.
pub fn show(rt: &(impl Print + Eprint), text: &clap::Error) -> Result<ExitCode, ScriptFault>
    ensures usage { kind_of text.now ≢ ErrorKind.DisplayHelp
        → kind_of text.now ≢ ErrorKind.DisplayVersion
        → IsOkAnd result (λ status. exit_status status ≡ 2) }
    ensures shown { (kind_of text.now ≡ ErrorKind.DisplayHelp) ⊎ (kind_of text.now ≡ ErrorKind.DisplayVersion)
        → MatchResult result (λ status. exit_status status ≡ 0) (λ fault. fault ≡ Output) }
{
    let shown = text.print(rt);
    if text.use_stderr() {
        return Ok(ExitCode::from(USAGE));
    }
    match shown {
        Ok(()) => Ok(ExitCode::SUCCESS),
        Err(_) => Err(ScriptFault::Output),
    }
}
