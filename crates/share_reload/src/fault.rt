//! Why the settings of a file that is read again are refused.
ghost use Rattle.share_reload.specs.Faults.{IsReloadFault};

use crate::clash::Clash;
use crate::roster::Roster;
use crate::section::{Section, changed_section};
use share_settings::Settings;
use std::fmt;

/// Why settings are not taken while a gateway runs.
#[derive(Clone, Copy, Debug, PartialEq, Eq)]
pub enum ReloadFault {
    /// A section differs that needs a restart.
    Section(Section),
    /// A tenant clashes with one that was there since the start.
    Clash(Clash),
}

impl fmt::Display for ReloadFault {
    fn fmt<W: fmt::Write>(&self, f: &mut fmt::Formatter<W>) -> fmt::Result {
        match self {
            ReloadFault::Section(section) => write!(f, "{section} needs a restart"),
            ReloadFault::Clash(clash) => write!(f, "{clash}"),
        }
    }
}

/// Why new settings are not taken: the first section that differs, and otherwise the first tenant that clashes.
pub fn reload_fault(old: &Settings, new: &Settings, roster: &Roster) -> Option<ReloadFault>
    ensures { IsReloadFault old.now new.now roster.now result }
{
    match changed_section(old, new) {
        Some(section) => Some(ReloadFault::Section(section)),
        None => match roster.clash(&new.plan) {
            Some(clash) => Some(ReloadFault::Clash(clash)),
            None => None,
        },
    }
}
