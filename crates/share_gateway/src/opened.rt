//! Opening a plan: its opening is made on a new engine, command by command.
ghost use Rattle.std.specs.Prelude.{◌≡◌, IfOk, IfErr, OnOk, false, true};
ghost use Rattle.share_base.specs.declared.version.Version.TheVariants.{Two};
ghost use Rattle.share_model.specs.link.Calls.{is_spent};
ghost use Rattle.share_model.specs.link.Live.{empty_link};
ghost use Rattle.share_gateway.specs.Opened.{IsOpened, IsNotOpened, is_book_life};
ghost use Rattle.share_gateway.specs.Making.{IsMade, IsNotMade, IsNoEngine};

use crate::openings::{OpeningCommands, PlanCommand, opening};
use crate::plan::{Entry, Plan};
use share_base::{Refusal, Reply, Version};
use share_core::{Engine, MAX_LIFE};
use share_model::Rates;
use std::alloc::Global;
use thiserror::Error;

/// The fewest events of a book.
pub const MIN_EVENTS: u64 = 131072;

/// Why a plan was not opened.
#[derive(Clone, Copy, Debug, PartialEq, Eq, Error)]
pub enum NotOpened {
    #[error("memory was refused")]
    NoMemory,
    #[error("the events of a book are 131072 to 16777216")]
    Range,
    #[error("{entry}: {refusal}")]
    Refused { entry: Entry, refusal: Refusal },
}

/// A new engine of version 2 with a life of this many events, on which the plan's opening was made. Otherwise, in this
/// order: `Range` if the events are not 131072 to 2^24; `NoMemory` if memory was refused. Last is the first entry of
/// the plan that was refused, and why. The shelf is dropped then.
pub fn open_engine<S: Rates + Drop>(
    alloc: Global,
    plan: &Plan,
    shelf: S,
    events: u64,
) -> Result<Engine<(), S>, NotOpened>
    ensures ok { IfOk result (λ engine. IsOpened (S.rates shelf) plan.now events engine) }
    ensures not { IfErr result (IsNotOpened (S.rates shelf) plan.now events) }
{
    let mut engine = new_engine(alloc, shelf, events)?;
    match make_all(&mut engine, plan) {
        Ok(()) => Ok(engine),
        Err(why) => {
            drop(engine);
            Err(why)
        }
    }
}

// A new engine of version 2.
fn new_engine<S: Rates + Drop>(
    alloc: Global,
    shelf: S,
    events: u64,
) -> Result<Engine<(), S>, NotOpened>
    ensures ok { IfOk result (λ engine. (is_book_life events ≡ true)
        × (engine.life ≡ events)
        × (engine.rates ≡ S.rates shelf)
        × (engine.live ≡ empty_link Two)) }
    ensures not { IfErr result (λ why. IsNoEngine events why) }
{
    if events < MIN_EVENTS || events > MAX_LIFE {
        return Err(NotOpened::Range);
    }
    match Engine::new(alloc, shelf, events, ()) {
        Err(_) => Err(NotOpened::NoMemory),
        Ok(engine) => {
            let mut engine = engine;
            engine.choose(Version::Two);
            Ok(engine)
        }
    }
}

// Makes the plan's opening on a new engine.
fn make_all<S: Rates>(engine: &mut Engine<(), S>, plan: &Plan) -> Result<(), NotOpened>
    requires new { engine.old.live ≡ empty_link Two }
    requires lasts { is_book_life engine.old.life ≡ true }
    ensures ok { OnOk result (IsOpened engine.old.rates plan.now engine.old.life engine.new) }
    ensures not { IfErr result (IsNotOpened engine.old.rates plan.now engine.old.life) }
{
    // The answers are not used: their contracts say that the tariffs are in range, and the plan is in its limits.
    let _ = engine.events();
    let _ = plan.tenants();
    let mut commands = opening(plan);
    while let Some(command) = commands.next() {
        make(engine, command)?;
    }
    Ok(())
}

/// Makes a command of an opening on an engine whose life is not spent: one event, unless memory was refused.
pub(crate) fn make<S: Rates>(
    engine: &mut Engine<(), S>,
    planned: PlanCommand,
) -> Result<(), NotOpened>
    requires { is_spent engine.old ≡ false }
    ensures ok { OnOk result (IsMade engine.old planned engine.new) }
    ensures not { IfErr result (IsNotMade engine.old planned) }
{
    match engine.command(planned.command) {
        Reply::Refused(Refusal::NoMemory) => Err(NotOpened::NoMemory),
        Reply::Refused(refusal) => Err(NotOpened::Refused {
            entry: planned.entry,
            refusal,
        }),
        _ => Ok(()),
    }
}
