//! The words of the command line as the system gives them, and faults as standard error says them.
ghost use Rattle.std.specs.Prelude.{◌≡◌, IfErr};
ghost use Rattle.std.specs.Process.{exit_status};
ghost use Rattle.share_script.specs.declared.script.ScriptFault.TheVariants.{NoMemory};

use share_script::ScriptFault;
use std::env::Env;
use std::io::Eprint;
use std::process::ExitCode;
use std::{env, io};

/// The status of a usage fault.
const USAGE: u8 = 2;

/// The words of the command line. `None` if one of them is not UTF-8.
pub fn given_words<R: Env + AllocGlobal>(rt: &R) -> Result<Option<Vec<String>>, ScriptFault>
    ensures { IfErr result (λ fault. fault ≡ NoMemory) }
{
    match env::args(rt) {
        Ok(words) => Ok(Some(words.collect(rt.alloc())?)),
        Err(error) if error.kind() == io::ErrorKind::OutOfMemory => Err(ScriptFault::NoMemory),
        Err(_) => Ok(None),
    }
}

/// Prints a fault on standard error.
pub fn fail(rt: &impl Eprint, fault: ScriptFault) -> ExitCode
    ensures { exit_status result ≡ 1 }
{
    // The status says that there is a fault even if standard error takes no text.
    let _ = eprintln!(rt; "stridelink: {fault}");
    ExitCode::FAILURE
}

/// Prints that a subcommand is one of another program.
pub fn not_here(rt: &impl Eprint, subcommand: &str, program: &str) -> ExitCode
    ensures { exit_status result ≡ 2 }
{
    let _ = eprintln!(rt; "stridelink: '{subcommand}' is a subcommand of {program}");
    ExitCode::from(USAGE)
}
