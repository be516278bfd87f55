//! Plans: the commands of their openings, as the lines of a script, and what opening them on an engine comes to.

use super::assertions::{holds, same};
use super::made::{looped, many, named, shared, with_tariff};
use super::tariffs::Four;
use share_base::{Event, FlowNo, Refusal};
use share_core::Engine;
use share_gateway::{Entry, NotOpened, Plan, open_engine, opening};
use share_model::Tape;
use share_script::write_event;
use std::alloc::Global;
use std::process::Abort;

/// The shortest life of a book.
const LIFE: u64 = 131072;

/// A plan of one currency and two tenants, the second with this flow number, and held or not; and its opening.
#[derive(Clone, Copy)]
struct Row {
    what: &'static str,
    flow: u32,
    held: bool,
    lines: &'static str,
}

static ROWS: [Row; 3] = [
    Row {
        what: "no gap, none held",
        flow: 2,
        held: false,
        lines: "mkcur x\nopen a 4 1\nopen b 4 1\nmktkt 1000 base\nfund 1 cur x\nmktkt 1 x\nfund 2 flow a\n\
            mktkt 2 x\nfund 3 flow b\n",
    },
    Row {
        what: "the second held",
        flow: 2,
        held: true,
        lines: "mkcur x\nopen a 4 1\nopen b 4 1\nmktkt 1000 base\nfund 1 cur x\nmktkt 1 x\nfund 2 flow a\n\
            mktkt 2 x\nfund 3 flow b\nhold b\n",
    },
    Row {
        what: "a gap of two",
        flow: 4,
        held: false,
        lines: "mkcur x\nopen a 4 1\nopen gap 1 1\nclose gap\nopen gap 1 1\nclose gap\nopen b 4 1\n\
            mktkt 1000 base\nfund 1 cur x\nmktkt 1 x\nfund 2 flow a\nmktkt 2 x\nfund 3 flow b\n",
    },
];

// The opening's commands as the lines of a script.
fn lines_of(rt: &impl Abort, alloc: Global, plan: &Plan) -> Tape {
    let mut text = Tape::new(alloc);
    let mut commands = opening(plan);
    for _ in 0..100 {
        let Some(next) = commands.next() else {
            break;
        };
        let written = write_event(&Event::Commanded(next.command), &mut text);
        same(rt, "a line", written, Ok(()));
    }
    text
}

// The second tenant's flow has its number, and is held or not.
fn second_is(rt: &impl Abort, row: &Row, engine: &Engine<(), Four>) {
    let flow = FlowNo(row.flow);
    same(rt, row.what, engine.flow(named(rt, "b")), Some(flow));
    same(rt, row.what, engine.held(flow), Some(row.held));
}

fn opens(rt: &impl Abort, alloc: Global, row: &Row) {
    let plan = shared(rt, alloc, row.flow, row.held);
    let text = lines_of(rt, alloc, &plan);
    holds(rt, row.what, text.bytes() == row.lines.as_bytes());
    let engine = open_engine(alloc, &plan, Four, LIFE).expect(rt, "a sound plan");
    second_is(rt, row, &engine);
    drop(engine);
}

#[test]
fn plans_open(rt: HostRuntime) {
    for at in 0..ROWS.len() {
        opens(&rt, rt.alloc(), &ROWS[at]);
    }
}

// The plan is not opened, and why.
fn is_not_opened(
    rt: &impl Abort,
    alloc: Global,
    what: &'static str,
    plan: &Plan,
    wanted: NotOpened,
) {
    match open_engine(alloc, plan, Four, LIFE) {
        Err(why) => same(rt, what, why, wanted),
        Ok(engine) => {
            drop(engine);
            holds(rt, what, false);
        }
    }
}

fn refused(entry: Entry, refusal: Refusal) -> NotOpened {
    NotOpened::Refused { entry, refusal }
}

#[test]
fn a_currency_backs_itself(rt: HostRuntime) {
    let plan = looped(&rt, rt.alloc());
    let entry = Entry::CurrencyGrant {
        currency: 1,
        grant: 2,
    };
    let wanted = refused(entry, Refusal::Cycle);
    is_not_opened(
        &rt,
        rt.alloc(),
        "a currency that backs itself",
        &plan,
        wanted,
    );
}

#[test]
fn a_tariff_lacks(rt: HostRuntime) {
    let plan = with_tariff(&rt, rt.alloc(), 9);
    let wanted = refused(Entry::Tenant(2), Refusal::NoTariff);
    is_not_opened(&rt, rt.alloc(), "a tariff that lacks", &plan, wanted);
}

#[test]
fn tenants_are_too_many(rt: HostRuntime) {
    let plan = many(&rt, rt.alloc());
    let wanted = refused(Entry::Tenant(65), Refusal::TableFull);
    is_not_opened(&rt, rt.alloc(), "65 tenants", &plan, wanted);
}

// A life of that many events is not a book's.
fn is_no_life(rt: &impl Abort, alloc: Global, plan: &Plan, events: u64) {
    match open_engine(alloc, plan, Four, events) {
        Err(why) => same(rt, events, why, NotOpened::Range),
        Ok(engine) => {
            drop(engine);
            holds(rt, events, false);
        }
    }
}

#[test]
fn lives_are_in_range(rt: HostRuntime) {
    let plan = shared(&rt, rt.alloc(), 2, false);
    is_no_life(&rt, rt.alloc(), &plan, LIFE - 1);
    is_no_life(&rt, rt.alloc(), &plan, (1 << 24) + 1);
}
