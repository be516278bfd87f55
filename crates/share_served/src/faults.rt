//! The faults in a run of the server, and which one is reported.
ghost use Rattle.std.specs.Prelude.{◌≡◌, None};
ghost use Rattle.share_served.specs.Faults.{first_of, faults_of, no_fault, reason_of};

use share_base::Refusal;
use share_connections::Reason;
use std::alloc::AllocError;
use std::fmt;
use thiserror::Error;

/// A fault in a run of the server.
#[derive(Clone, Copy, Debug, PartialEq, Eq, Error)]
pub enum ServeFault {
    /// A connection could not be accepted.
    #[error("cannot accept a connection")]
    Accept,
    /// A thread was refused.
    #[error("cannot start a worker")]
    Thread,
    /// The uplink is torn.
    #[error("the uplink failed")]
    Uplink,
    /// The life of the link is spent.
    #[error("the life is spent")]
    Life,
    /// A frame was left to send.
    #[error("packets are left over")]
    Unsent,
    /// A worker has queued more than came to the link.
    #[error("offers are left over")]
    LeftOver,
    /// The receipts of the clerks are not the commands of the journal, or a clerk or an end is missing.
    #[error("the books do not agree")]
    Mismatch,
    /// Memory was refused.
    #[error("out of memory")]
    NoMemory,
    /// The audit could not be written.
    #[error("cannot write the audit")]
    Audit,
    /// The report could not be written.
    #[error("cannot write the output")]
    Output,
}

/// The fault that is reported of a run, and the system's reason for it, if there is one.
#[derive(Clone, Copy, Debug)]
pub struct RunFault {
    pub kind: ServeFault,
    pub reason: Option<Reason>,
}

impl fmt::Display for RunFault {
    fn fmt<W: fmt::Write>(&self, f: &mut fmt::Formatter<W>) -> fmt::Result {
        let kind = self.kind;
        match self.reason {
            Some(reason) => write!(f, "{kind}: {reason}"),
            None => write!(f, "{kind}"),
        }
    }
}

/// The reasons that the system gave for faults of a run. It gives none for a thread: the kit hands the work back,
/// and no error with it.
#[derive(Clone, Copy, Debug)]
pub struct Reasons {
    /// Why a connection could not be accepted.
    pub accept: Option<Reason>,
    /// Why the uplink is torn.
    pub uplink: Option<Reason>,
}

impl Reasons {
    /// A fault with its reason, if it has one.
    pub fn explain(&self, kind: ServeFault) -> RunFault
        ensures kind { result.kind ≡ kind }
        ensures reason { result.reason ≡ reason_of self.now kind }
    {
        let reason = match kind {
            ServeFault::Accept => self.accept,
            ServeFault::Uplink => self.uplink,
            _ => None,
        };
        RunFault { kind, reason }
    }
}

/// The faults that a run had.
#[derive(Clone, Copy, Debug, PartialEq, Eq)]
pub struct FoundFaults {
    pub accept: bool,
    pub thread: bool,
    pub uplink: bool,
    pub life: bool,
    pub unsent: bool,
    pub left_over: bool,
    pub mismatch: bool,
    pub memory: bool,
    pub audit: bool,
    pub output: bool,
}

impl FoundFaults {
    /// No fault.
    pub fn none() -> FoundFaults
        ensures { result ≡ no_fault }
    {
        FoundFaults {
            accept: false,
            thread: false,
            uplink: false,
            life: false,
            unsent: false,
            left_over: false,
            mismatch: false,
            memory: false,
            audit: false,
            output: false,
        }
    }

    /// The fault that is reported: the first one, in the order of `ServeFault`.
    pub fn first(&self) -> Option<ServeFault>
        ensures first { result ≡ first_of (faults_of self.now) }
        ensures none { result ≡ None → self.now ≡ no_fault }
    {
        if self.accept {
            return Some(ServeFault::Accept);
        }
        if self.thread {
            return Some(ServeFault::Thread);
        }
        if self.uplink {
            return Some(ServeFault::Uplink);
        }
        if self.life {
            return Some(ServeFault::Life);
        }
        if self.unsent {
            return Some(ServeFault::Unsent);
        }
        if self.left_over {
            return Some(ServeFault::LeftOver);
        }
        if self.mismatch {
            return Some(ServeFault::Mismatch);
        }
        if self.memory {
            return Some(ServeFault::NoMemory);
        }
        if self.audit {
            return Some(ServeFault::Audit);
        }
        if self.output {
            return Some(ServeFault::Output);
        }
        None
    }
}

impl From<AllocError> for ServeFault {
    ghost use Rattle.std.specs.Prelude.{◌≡◌};
    ghost use Rattle.share_served.specs.declared.faults.ServeFault.TheVariants.{NoMemory};

    ghost from_gives = { λ _ fault. fault ≡ NoMemory };

    fn from(_refused: AllocError) -> ServeFault {
        ServeFault::NoMemory
    }
}

impl From<ServeFault> for RunFault {
    ghost use Rattle.std.specs.Prelude.{◌≡◌};
    ghost use Rattle.share_served.specs.Faults.{bare};

    ghost from_gives = { λ kind fault. fault ≡ bare kind };

    fn from(kind: ServeFault) -> RunFault {
        RunFault { kind, reason: None }
    }
}

impl From<AllocError> for RunFault {
    ghost use Rattle.std.specs.Prelude.{◌≡◌};
    ghost use Rattle.share_served.specs.Faults.{bare};
    ghost use Rattle.share_served.specs.declared.faults.ServeFault.TheVariants.{NoMemory};

    ghost from_gives = { λ _ fault. fault ≡ bare NoMemory };

    fn from(_refused: AllocError) -> RunFault {
        RunFault::from(ServeFault::NoMemory)
    }
}

impl From<Refusal> for ServeFault {
    ghost use Rattle.std.specs.Prelude.{◌≡◌};
    ghost use Rattle.share_served.specs.declared.faults.ServeFault.TheVariants.{NoMemory};

    ghost from_gives = { λ _ fault. fault ≡ NoMemory };

    fn from(_refused: Refusal) -> ServeFault {
        ServeFault::NoMemory
    }
}

impl From<Refusal> for RunFault {
    ghost use Rattle.std.specs.Prelude.{◌≡◌};
    ghost use Rattle.share_served.specs.Faults.{bare};
    ghost use Rattle.share_served.specs.declared.faults.ServeFault.TheVariants.{NoMemory};

    ghost from_gives = { λ _ fault. fault ≡ bare NoMemory };

    fn from(_refused: Refusal) -> RunFault {
        RunFault::from(ServeFault::NoMemory)
    }
}
