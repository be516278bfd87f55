//! The outcome of a call that does not wait.
ghost use Rattle.std.specs.Prelude.{◌≡◌, ◌≤◌, ◌≢◌, true, IfOk, IfErr};
ghost use Rattle.std.specs.IoError.{error_kind};
ghost use Rattle.share_sockets.specs.Failure.{IsFailure};
ghost use Rattle.share_sockets.specs.Progress.{ReadsAs, is_over};
ghost use Rattle.share_sockets.specs.declared.progress.Progress.TheVariants.{Moved, Again, Waits, Over};

use std::io::{Error, ErrorKind, Result};

/// The outcome of a read or a write of at least one byte.
#[derive(Clone, Copy, Debug, PartialEq, Eq)]
pub enum Progress {
    /// This many bytes went, at least one.
    Moved(usize),
    /// A signal came first: the call is made again.
    Again,
    /// No byte goes until the socket is ready again.
    Waits,
    /// The far end has ended the stream, or the stream has failed.
    Over,
}

/// The outcome of the answer to such a call. An error that is not a pause is a failure of the stream.
pub fn outcome_of(answer: Result<usize>) -> Result<Progress>
    ensures moved { IfOk answer (λ count. 1 ≤ count → result ≡ Ok (Moved count)) }
    ensures end { IfOk answer (λ count. count ≡ 0 → result ≡ Ok Over) }
    ensures waits { IfErr answer (λ fault. error_kind fault ≡ ErrorKind.WouldBlock → result ≡ Ok Waits) }
    ensures again { IfErr answer (λ fault. error_kind fault ≡ ErrorKind.Interrupted → result ≡ Ok Again) }
    ensures failed { IfErr answer (λ fault. IsFailure fault → result ≡ Err fault) }
    ensures fault { IfErr result IsFailure }
{
    match answer {
        Ok(0) => Ok(Progress::Over),
        Ok(count) => Ok(Progress::Moved(count)),
        Err(fault) => outcome_after(fault),
    }
}

// The outcome of a fault.
fn outcome_after(fault: Error) -> Result<Progress>
    ensures waits { error_kind fault ≡ ErrorKind.WouldBlock → result ≡ Ok Waits }
    ensures again { error_kind fault ≡ ErrorKind.Interrupted → result ≡ Ok Again }
    ensures failed { IsFailure fault → result ≡ Err fault }
    ensures fault { IfErr result IsFailure }
{
    if fault.kind() == ErrorKind::WouldBlock {
        Ok(Progress::Waits)
    } else if fault.kind() == ErrorKind::Interrupted {
        Ok(Progress::Again)
    } else {
        Err(fault)
    }
}

/// The same, if a failure is an end like that of the far end.
pub fn progress_of(answer: Result<usize>) -> Progress
    ensures moved { IfOk answer (λ count. 1 ≤ count → result ≡ Moved count) }
    ensures end { IfOk answer (λ count. count ≡ 0 → result ≡ Over) }
    ensures waits { IfErr answer (λ fault. error_kind fault ≡ ErrorKind.WouldBlock → result ≡ Waits) }
    ensures again { IfErr answer (λ fault. error_kind fault ≡ ErrorKind.Interrupted → result ≡ Again) }
    ensures failed { IfErr answer (λ fault. error_kind fault ≢ ErrorKind.WouldBlock
        → error_kind fault ≢ ErrorKind.Interrupted → result ≡ Over) }
{
    over_if_failed(outcome_of(answer))
}

/// Takes a failure for an end.
pub(crate) fn over_if_failed(outcome: Result<Progress>) -> Progress
    ensures same { IfOk outcome (λ progress. result ≡ progress) }
    ensures over { IfErr outcome (λ _. result ≡ Over) }
{
    match outcome {
        Ok(progress) => progress,
        Err(_) => Progress::Over,
    }
}

/// The answer of a reader of std. A call that does not wait has no answer for a socket that is not ready, so a pause is
/// an interruption.
pub(crate) fn answer_of(progress: Progress) -> Result<usize>
    ensures { ReadsAs progress result }
{
    match progress {
        Progress::Moved(count) => Ok(count),
        Progress::Again | Progress::Waits => Err(Error::from(ErrorKind::Interrupted)),
        Progress::Over => Ok(0),
    }
}

/// Whether a look at the next byte found the end or a failure.
pub(crate) fn is_end(outcome: Result<Progress>) -> bool
    ensures found { IfOk outcome (λ progress. result ≡ is_over progress) }
    ensures failed { IfErr outcome (λ _. result ≡ true) }
{
    match outcome {
        Ok(Progress::Over) | Err(_) => true,
        Ok(_) => false,
    }
}
