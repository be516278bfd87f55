//! Faults of the disk as the numbers of the system's errors, which threads show each other in one word.
ghost use Rattle.std.specs.Prelude.{◌≡◌, ◌<◌, ◌^◌, ◌↔◌, ℕ, pos, Some, IsNone, IfSome};
ghost use Rattle.std.specs.IoError.{raw_os_error};

use std::io;
use std::io::ErrorKind;

// Numbers of Linux, for the faults that are no errors of the system.
const NOT_FOUND: u64 = 2;

const IO_ERROR: u64 = 5;

const OUT_OF_MEMORY: u64 = 12;

const BUSY: u64 = 16;

const EXISTS: u64 = 17;

const NO_SPACE: u64 = 28;

/// The number of a fault, which is not 0.
pub(crate) fn number_of(fault: &io::Error) -> u64
    ensures some { 0 < result }
    ensures system { (code : ℕ) → 0 < code → raw_os_error fault.now ≡ Some (pos code) → result ≡ code }
{
    match fault.raw_os_error() {
        Some(code) if code > 0 => code as u64,
        _ => number_of_kind(fault.kind()),
    }
}

// The number of an error of the system that says the same.
fn number_of_kind(kind: ErrorKind) -> u64
    ensures { 0 < result }
{
    match kind {
        ErrorKind::NotFound => NOT_FOUND,
        ErrorKind::OutOfMemory => OUT_OF_MEMORY,
        ErrorKind::ResourceBusy => BUSY,
        ErrorKind::AlreadyExists => EXISTS,
        ErrorKind::WriteZero => NO_SPACE,
        _ => IO_ERROR,
    }
}

/// The fault of a number. 0 says that there is none.
pub(crate) fn fault_of(number: u64) -> Option<io::Error>
    ensures none { IsNone result ↔ (number ≡ 0) }
    ensures system { number < 2 ^ 31 → IfSome result (λ fault. raw_os_error fault ≡ Some (pos number)) }
{
    if number == 0 {
        return None;
    }
    match i32::try_from(number) {
        Ok(code) => Some(io::Error::from_raw_os_error(code)),
        Err(_) => Some(io::Error::from(ErrorKind::Other)),
    }
}
