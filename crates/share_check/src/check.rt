//! The check of a plan.
ghost use Rattle.std.specs.Prelude.{◌≡◌, IfOk, IfErr, OnOk, None, true};
ghost use Rattle.share_gateway.specs.Opened.{first_refused, is_book_life};
ghost use Rattle.share_tariff.specs.PlainRates.{are_plain_rates};
ghost use Rattle.share_tariff.specs.PlainShelf.{plain_rates_of};
ghost use Rattle.share_check.specs.Checks.{IsUnsound, IsNoShelf};

use share_base::Refusal;
use share_gateway::{Entry, NotOpened, open_engine};
use share_model::Rate;
use share_settings::Settings;
use share_tariff::PlainShelf;
use std::alloc::Global;
use std::fmt;

/// Why a plan cannot be opened.
#[derive(Clone, Copy, Debug, PartialEq, Eq)]
pub enum Unsound {
    NoMemory,
    /// The tariffs are not 1 to 8, or one is out of its range.
    Tariffs,
    /// The events of a book are out of their range.
    Events,
    /// The first entry that is refused, and why.
    Refused { entry: Entry, refusal: Refusal },
}

impl fmt::Display for Unsound {
    fn fmt<W: fmt::Write>(&self, f: &mut fmt::Formatter<W>) -> fmt::Result {
        match self {
            Unsound::NoMemory => f.write_str("out of memory"),
            Unsound::Tariffs => f.write_str("the tariffs are out of their range"),
            Unsound::Events => f.write_str("the events of a book are out of their range"),
            Unsound::Refused { entry, refusal } => {
                let (number, name) = (refusal.number(), refusal.name());
                write!(f, "{entry}: no {number} {name}")
            }
        }
    }
}

/// Opens the plan on an engine with the tariffs and the life that the settings give, and drops the engine. Otherwise
/// the first fault, in this order: the tariffs, the events, memory or the first entry that is refused.
pub fn check_plan(alloc: Global, settings: &Settings) -> Result<(), Unsound>
    ensures ok { OnOk result (first_refused settings.now.tariffs settings.now.plan ≡ None) }
    ensures not { IfErr result (IsUnsound settings.now.tariffs settings.now.plan settings.now.books.events) }
{
    let shelf = shelf_of(alloc, settings.tariffs.as_slice())?;
    match open_engine(alloc, &settings.plan, shelf, settings.books.events) {
        Ok(engine) => {
            drop(engine);
            Ok(())
        }
        Err(NotOpened::NoMemory) => Err(Unsound::NoMemory),
        Err(NotOpened::Range) => Err(Unsound::Events),
        Err(NotOpened::Refused { entry, refusal }) => Err(Unsound::Refused { entry, refusal }),
    }
}

// The tariffs on a shelf.
fn shelf_of(alloc: Global, rates: &[Rate]) -> Result<PlainShelf, Unsound>
    ensures ok { IfOk result (λ shelf.
        (plain_rates_of shelf ≡ rates.now) × (are_plain_rates rates.now ≡ true)) }
    ensures not { IfErr result (IsNoShelf rates.now) }
{
    match Vec::from_slice(alloc, rates) {
        Err(_) => Err(Unsound::NoMemory),
        Ok(rates) => match PlainShelf::new(rates) {
            Err(_) => Err(Unsound::Tariffs),
            Ok(shelf) => Ok(shelf),
        },
    }
}
