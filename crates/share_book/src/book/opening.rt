//! Books that are opened over a plan.
ghost use Rattle.std.specs.Prelude.{◌≡◌, ◌++◌, flat_map, IfOk, IfErr, OnOk};
ghost use Rattle.share_gateway.specs.Opened.{IsNotOpened};
ghost use Rattle.share_gateway.specs.Opening.{opening};
ghost use Rattle.share_book.specs.OpenBook.{IsOpenBook, opened_text, command_line};
ghost use Rattle.share_book.specs.Texts.{first_line};

use super::{Book, NewBook};
use crate::audited::AuditedEngine;
use crate::book_text::{BookText, TextKind};
use share_gateway::{NotOpened, Plan, open_engine, opening};
use share_model::Rates;
use share_script::spelled_command;
use std::alloc::{AllocError, Global};

/// The number of bytes of text that have room after those of the opening.
pub const TEXT_ROOM: usize = 262144;

impl<S: Rates + Drop> Book<S> {
    /// A new book over a plan, with a life of this many events and a text of this kind. The plan's opening is made on a
    /// new engine. Otherwise, in this order: `Range` if the events are not 131072 to 2^24; `NoMemory` if memory was
    /// refused. Last is the first entry of the plan that was refused, and why. The shelf is dropped then.
    pub fn open(
        alloc: Global,
        plan: &Plan,
        shelf: S,
        events: u64,
        kind: TextKind,
    ) -> Result<NewBook<S>, NotOpened>
        ensures ok { IfOk result (λ b. IsOpenBook (S.rates shelf) plan.now events kind b) }
        ensures not { IfErr result (IsNotOpened (S.rates shelf) plan.now events) }
    {
        let engine = open_engine(alloc, plan, shelf, events)?;
        match pages(alloc, plan, kind) {
            Err(_) => {
                drop(engine);
                Err(NotOpened::NoMemory)
            }
            Ok(pages) => {
                let (text, plan) = pages;
                let audited = AuditedEngine::over(engine, kind, text);
                let book = Book { audited, plan };
                Ok(NewBook { book })
            }
        }
    }
}

// The text of a plan's opening, with room after it, and a copy of the plan.
fn pages(alloc: Global, plan: &Plan, kind: TextKind) -> Result<(BookText, Plan), AllocError>
    ensures { IfOk result (λ both. (both.0 ≡ opened_text kind plan.now) × (both.1 ≡ plan.now)) }
{
    let text = opening_text(alloc, plan, kind)?;
    let plan = plan.copy(alloc)?;
    Ok((text, plan))
}

// The first line and the lines of a plan's opening, with room after them.
fn opening_text(alloc: Global, plan: &Plan, kind: TextKind) -> Result<BookText, AllocError>
    ensures { IfOk result (λ text. text ≡ opened_text kind plan.now) }
{
    let mut text = first_text(alloc, kind)?;
    push_opening(&mut text, plan)?;
    text.reserve(TEXT_ROOM)?;
    Ok(text)
}

// The first line of a text.
fn first_text(alloc: Global, kind: TextKind) -> Result<BookText, AllocError>
    ensures { IfOk result (λ text. text.bytes ≡ first_line kind) }
{
    let mut text = BookText::new(alloc);
    let line = kind.first_line();
    text.reserve(line.len())?;
    text.push(line.as_bytes());
    Ok(text)
}

// Puts the lines of a plan's opening at the end of a text.
fn push_opening(text: &mut BookText, plan: &Plan) -> Result<(), AllocError>
    ensures { OnOk result (text.new.bytes ≡ text.old.bytes ++ flat_map command_line (opening plan.now)) }
{
    let mut commands = opening(plan);
    'commands: while let Some(planned) = commands.next() {
        let line = spelled_command(&planned.command);
        text.reserve(line.as_bytes().len())?;
        text.push(line.as_bytes());
    }
    Ok(())
}
