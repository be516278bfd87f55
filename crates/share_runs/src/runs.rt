//! A run of a script, and a strict one.
ghost use Rattle.std.specs.Prelude.{◌≡◌, ◌⊎◌, ◌^◌, [], None, Err, true, false, IfOk, IfSome, OnOk};
ghost use Rattle.std.specs.Prelude.{MatchResult};
ghost use Rattle.share_core.specs.Life.{life_refusal};
ghost use Rattle.share_model.specs.io.Calls.{ReadsToEnd, ReadFails, HasRead, Offers, OfferRefused};
ghost use Rattle.share_model.specs.io.Printing.{bytes_told};
ghost use Rattle.share_model.specs.io.Told.{TapeAnswers};
ghost use Rattle.share_runs.specs.Printout.{PrintedRun, PrintedRunPart, PrintedToRefusal};
ghost use Rattle.share_runs.specs.Strict.{EndsAtRefusal, LosesFeed};
ghost use Rattle.share_script.specs.Script.{FoundNone};
ghost use Rattle.share_script.specs.declared.script.ScriptFault.TheVariants.{Input, Output, NoMemory};

use crate::lines::LineReader;
use crate::strict::StrictWriter;
use share_core::Engine;
use share_model::{Rates, Tape, TellingReader, TellingWriter};
use share_script::{ScriptFault, print_bytes, run_script};
use std::alloc::Global;

/// Runs a script on a new link over this shelf, and prints the answers and the bytes of the link in hexadecimal. If
/// that fails, a beginning of the text for what was read of the script was printed.
pub fn run<S: Rates + Drop, I: TellingReader, O: TellingWriter>(
    alloc: Global,
    shelf: S,
    life: u64,
    input: &mut I,
    output: &mut O,
) -> Result<(), ScriptFault>
    requires life { life_refusal life ≡ None }
    ensures printed { IfSome (I.left input.old) (λ script. MatchResult result
        (λ _. PrintedRun (bytes_told (O.told output.old)) (bytes_told (O.told output.new))
        life (S.rates shelf) script)
        (λ _. PrintedRunPart (bytes_told (O.told output.old)) (bytes_told (O.told output.new))
        life (S.rates shelf) script (I.left input.new))) }
    ensures read { OnOk result (ReadsToEnd I.gives (2 ^ 32) input.old input.new) }
    ensures offers { OnOk result (Offers O.answers output.old output.new) }
    ensures input { result ≡ Err Input → ReadFails I.gives (2 ^ 32) input.old input.new
        × Offers O.answers output.old output.new }
    ensures output { result ≡ Err Output → HasRead I.gives (2 ^ 32) input.old input.new
        × OfferRefused O.answers output.old output.new }
    ensures memory { result ≡ Err NoMemory → FoundNone I.gives (2 ^ 32) input.old input.new
        TapeAnswers (record { bytes = []; counts = [] }) O.answers output.old output.new }
{
    let Ok(engine) = Engine::new(alloc, shelf, life, Tape::new(alloc)) else {
        return Err(ScriptFault::NoMemory);
    };
    let engine = run_script(alloc, engine, input, output)?;
    let printed = print_bytes(output, engine.writer().bytes());
    drop(engine);
    printed?;
    Ok(())
}

/// Runs a script up to its first refused line, and answers whether there was none. The output ends with the answer to
/// that line.
pub fn run_strictly<S: Rates + Drop, I: TellingReader, O: TellingWriter>(
    alloc: Global,
    shelf: S,
    life: u64,
    input: &mut LineReader<I>,
    output: &mut StrictWriter<O>,
) -> Result<bool, ScriptFault>
    requires life { life_refusal life ≡ None }
    requires goes { output.old.is_refused ≡ false }
    ensures whole { IfOk result (λ whole. whole ≡ true → IfSome (I.left input.old.input) (λ script.
        PrintedRun (bytes_told (O.told output.old.output)) (bytes_told (O.told output.new.output))
        life (S.rates shelf) script)) }
    ensures refused { IfOk result (λ whole. whole ≡ false → IfSome (I.left input.old.input) (λ script.
        PrintedToRefusal (bytes_told (O.told output.old.output)) (bytes_told (O.told output.new.output))
        life (S.rates shelf) script (I.left input.new.input))) }
    ensures end { IfOk result (λ whole. whole ≡ true
        → ReadsToEnd ⟦<LineReader<I> as TellingReader>⟧.gives (2 ^ 32) input.old input.new) }
    ensures offers { IfOk result (λ whole. whole ≡ true
        → Offers ⟦<StrictWriter<O> as TellingWriter>⟧.answers output.old output.new) }
    ensures stops { IfOk result (λ whole. whole ≡ false
        → EndsAtRefusal ⟦<StrictWriter<O> as TellingWriter>⟧.answers (λ w. w.is_refused) output.old) }
    ensures read { IfOk result (λ whole. whole ≡ false
        → HasRead ⟦<LineReader<I> as TellingReader>⟧.gives (2 ^ 32) input.old input.new) }
    ensures input { result ≡ Err Input
        → ReadFails ⟦<LineReader<I> as TellingReader>⟧.gives (2 ^ 32) input.old input.new
        × Offers ⟦<StrictWriter<O> as TellingWriter>⟧.answers output.old output.new }
    ensures output { result ≡ Err Output
        → HasRead ⟦<LineReader<I> as TellingReader>⟧.gives (2 ^ 32) input.old input.new
        × (OfferRefused ⟦<StrictWriter<O> as TellingWriter>⟧.answers output.old output.new
        ⊎ LosesFeed ⟦<StrictWriter<O> as TellingWriter>⟧.answers (λ w. w.is_refused) (λ w. w.output) O.answers
        output.old output.new.output) }
    ensures memory { result ≡ Err NoMemory
        → FoundNone ⟦<LineReader<I> as TellingReader>⟧.gives (2 ^ 32) input.old input.new
        TapeAnswers (record { bytes = []; counts = [] })
        ⟦<StrictWriter<O> as TellingWriter>⟧.answers output.old output.new }
{
    match run(alloc, shelf, life, input, output) {
        Ok(()) => Ok(true),
        Err(ScriptFault::Output) if output.is_refused() => {
            output.end()?;
            Ok(false)
        }
        Err(fault) => Err(fault),
    }
}
