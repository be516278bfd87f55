//! The file is read anew while a gateway runs.

use crate::reactor::Reactor;
use share_answers::{refusal, refusal_at};
use share_gateway::Plan;
use share_gateway_sockets::Added;
use share_loading::read_file;
use share_news::NotRun;
use share_reload::{ControlHolds, reload_fault};
use share_rotation::NextPlan;
use share_settings::Settings;
use std::alloc::{AllocError, Global};
use std::fs::{File, Files};
use std::io::Eprint;
use std::mem;
use std::net::Net;
use std::time::Clock;

// Puts a plan and tariffs that are empty into settings, and returns those that were there.
fn taken_plan(alloc: Global, settings: &mut Settings) -> Option<NextPlan> {
    let Ok(none) = Plan::new(Vec::new(alloc), Vec::new(alloc)) else {
        return None;
    };
    let plan = mem::replace(&mut settings.plan, none);
    let rates = mem::replace(&mut settings.tariffs, Vec::new(alloc));
    Some(NextPlan { plan, rates })
}

impl Reactor<'_> {
    /// Reads the file anew, and has the next book begin with its plan. Returns the reply. If the file is refused,
    /// nothing changes.
    pub(crate) fn reload<R: Files<File = File> + Net + Clock + Eprint>(
        &mut self,
        rt: &R,
        path: &str,
    ) -> Result<Vec<u8>, AllocError> {
        let settings = match read_file(rt, self.alloc, path) {
            Ok(settings) => settings,
            Err(refused) => return refusal_at(self.alloc, path, &refused),
        };
        if let Some(fault) = reload_fault(&self.settings, &settings, &self.roster) {
            drop(settings);
            return refusal(self.alloc, path, &fault);
        }
        let reply = self.next_book()?;
        match self.take_over(rt, settings) {
            Ok(()) => {
                self.news.tell_reload(rt, path);
                Ok(reply)
            }
            Err(fault) => refusal(self.alloc, path, &fault),
        }
    }

    // Takes settings over. If a port cannot be opened, or memory is refused, nothing changes.
    fn take_over<R: Files<File = File> + Net>(
        &mut self,
        rt: &R,
        settings: Settings,
    ) -> Result<(), NotRun> {
        let mut added = Added::new(self.alloc)?;
        match self.prepare(rt, &settings, &mut added) {
            Ok(holds) => {
                self.commit(rt, settings, holds);
                Ok(())
            }
            Err(fault) => {
                drop(settings);
                self.sockets.undo(rt, &added);
                Err(fault)
            }
        }
    }

    // Adds the doors and the ports that are new, and admits the names.
    fn prepare<R: Files + Net>(
        &mut self,
        rt: &R,
        settings: &Settings,
        added: &mut Added,
    ) -> Result<ControlHolds, NotRun> {
        self.sockets.add(rt, self.alloc, settings, added)?;
        let holds = self.holds.keep(self.alloc, &settings.plan)?;
        match self.roster.admit(&settings.plan) {
            Ok(()) => Ok(holds),
            Err(_) => {
                drop(holds);
                Err(NotRun::NoMemory)
            }
        }
    }

    // Gives each port to its tenant, and closes the ports and the doors that are gone. The next book begins with the
    // plan.
    fn commit<R: Files>(&mut self, rt: &R, settings: Settings, holds: ControlHolds) {
        self.sockets.keep(rt, self.alloc, &settings);
        let mut settings = settings;
        if let Some(next) = taken_plan(self.alloc, &mut settings) {
            let mut next = next;
            holds.hold_in(&mut next.plan);
            self.books.reload(next);
        }
        self.holds = holds;
        self.settings = settings;
    }
}
