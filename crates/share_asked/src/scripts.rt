//! Runs of scripts over the program's tariffs, and their exit statuses.
ghost use Rattle.std.specs.Prelude.{◌≡◌, None, IfOk, false};
ghost use Rattle.std.specs.Io.Buffered.{reader_inner};
ghost use Rattle.share_core.specs.Life.{life_refusal};
ghost use Rattle.share_asked.specs.Rates.{program_rates};
ghost use Rattle.share_asked.specs.Statuses.{EndsStrictly, IsAsAsked, RanStrictly, RanWhole};

// The shelf of the program: tariffs 1 to 4. Their boxes are made in the body that uses it, which returns an error if
// memory is refused.
macro_rules! program_shelf {
    ($alloc:expr) => {
        share_tariff::shelf!($alloc, (1, 0, 1), (48, 16, 2), (1024, 0, 1), (2048, 1024, 3))
    };
}

use share_model::{PatientWriter, PlainReader, PlainWriter, Rates, TellingReader, TellingWriter};
use share_runs::{LineReader, StrictWriter, run, run_strictly};
use share_script::ScriptFault;
use share_words::Orders;
use std::alloc::Global;
use std::io;
use std::io::{BufReader, Eprint, Print, Printer, Read};
use std::process::ExitCode;

// Prints which line was refused, and how. The exit status says that a line was refused even if standard error takes
// no text.
fn tell_refusal<I: TellingReader, O: TellingWriter>(
    rt: &impl Eprint,
    input: &LineReader<I>,
    output: &StrictWriter<O>,
) {
    let number = input.number();
    let line = input.line().escape_ascii();
    let answer = output.line().escape_ascii();
    let _ = eprintln!(rt; "stridelink: line {number}, '{line}': {answer}");
}

// Runs a script up to its first refused line, which standard error names. The exit status says whether there was one.
fn run_to_refusal<S: Rates + Drop, I: TellingReader, O: TellingWriter>(
    rt: &impl Eprint,
    alloc: Global,
    shelf: S,
    life: u64,
    input: &mut LineReader<I>,
    output: &mut StrictWriter<O>,
) -> Result<ExitCode, ScriptFault>
    requires life { life_refusal life ≡ None }
    requires goes { output.old.is_refused ≡ false }
    ensures { IfOk result (EndsStrictly ⟦<LineReader<I> as TellingReader>⟧.gives
        ⟦<StrictWriter<O> as TellingWriter>⟧.answers (λ w. w.is_refused) input.old input.new output.old output.new) }
{
    if run_strictly(alloc, shelf, life, input, output)? {
        return Ok(ExitCode::SUCCESS);
    }
    tell_refusal(rt, input, output);
    Ok(ExitCode::FAILURE)
}

// Runs a script up to its first refused line; the replies go to standard output.
fn run_and_tell<'a, P: Print + Eprint, S: Rates + Drop, R: Read + Drop>(
    rt: &'a P,
    alloc: Global,
    shelf: S,
    life: u64,
    script: R,
) -> Result<ExitCode, ScriptFault>
    requires { life_refusal life ≡ None }
    ensures { IfOk result (RanStrictly ⟦<LineReader<PlainReader<BufReader<R>>> as TellingReader>⟧.gives
        (λ lines. reader_inner lines.input.0)
        ⟦<StrictWriter<PatientWriter<PlainWriter<Printer<'a, P>>>> as TellingWriter>⟧.answers
        (λ w. w.is_refused) script) }
{
    let Ok(script) = BufReader::new(alloc, script) else {
        return Err(ScriptFault::NoMemory);
    };
    let mut input = LineReader::new(PlainReader(script));
    let mut output = StrictWriter::new(PatientWriter(PlainWriter(io::writer(rt))));
    run_to_refusal(rt, alloc, shelf, life, &mut input, &mut output)
}

// Runs a script to its end; the replies go to standard output.
fn run_whole<'a, P: Print, S: Rates + Drop, R: Read + Drop>(
    rt: &'a P,
    alloc: Global,
    shelf: S,
    life: u64,
    script: R,
) -> Result<ExitCode, ScriptFault>
    requires { life_refusal life ≡ None }
    ensures { IfOk result (RanWhole ⟦<PlainReader<R> as TellingReader>⟧.gives (λ plain. plain.0)
        ⟦<PatientWriter<PlainWriter<Printer<'a, P>>> as TellingWriter>⟧.answers script) }
{
    let mut input = PlainReader(script);
    let mut output = PatientWriter(PlainWriter(io::writer(rt)));
    run(alloc, shelf, life, &mut input, &mut output)?;
    Ok(ExitCode::SUCCESS)
}

// Runs a script over this shelf, whose tariffs are the program's; the replies go to standard output.
fn run_on_tariffs<'a, P: Print + Eprint, S: Rates + Drop, R: Read + Drop>(
    rt: &'a P,
    alloc: Global,
    shelf: S,
    orders: Orders<'_>,
    script: R,
) -> Result<ExitCode, ScriptFault>
    requires rates { S.rates shelf ≡ program_rates }
    requires life { life_refusal orders.life ≡ None }
    ensures { IfOk result (λ status. IsAsAsked orders.entry.is_strict
        (RanStrictly ⟦<LineReader<PlainReader<BufReader<R>>> as TellingReader>⟧.gives
        (λ lines. reader_inner lines.input.0)
        ⟦<StrictWriter<PatientWriter<PlainWriter<Printer<'a, P>>>> as TellingWriter>⟧.answers
        (λ w. w.is_refused) script status)
        (RanWhole ⟦<PlainReader<R> as TellingReader>⟧.gives (λ plain. plain.0)
        ⟦<PatientWriter<PlainWriter<Printer<'a, P>>> as TellingWriter>⟧.answers script status)) }
{
    if orders.is_strict {
        run_and_tell(rt, alloc, shelf, orders.life, script)
    } else {
        run_whole(rt, alloc, shelf, orders.life, script)
    }
}

/// Runs a script over the program's shelf, which is made here.
pub fn run_on_standard<'a, P: Print + Eprint, R: Read + Drop>(
    rt: &'a P,
    alloc: Global,
    orders: Orders<'_>,
    script: R,
) -> Result<ExitCode, ScriptFault>
    requires { life_refusal orders.life ≡ None }
    ensures { IfOk result (λ status. IsAsAsked orders.entry.is_strict
        (RanStrictly ⟦<LineReader<PlainReader<BufReader<R>>> as TellingReader>⟧.gives
        (λ lines. reader_inner lines.input.0)
        ⟦<StrictWriter<PatientWriter<PlainWriter<Printer<'a, P>>>> as TellingWriter>⟧.answers
        (λ w. w.is_refused) script status)
        (RanWhole ⟦<PlainReader<R> as TellingReader>⟧.gives (λ plain. plain.0)
        ⟦<PatientWriter<PlainWriter<Printer<'a, P>>> as TellingWriter>⟧.answers script status)) }
{
    let shelf = program_shelf!(alloc);
    run_on_tariffs(rt, alloc, shelf, orders, script)
}
