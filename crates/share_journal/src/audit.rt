//! The audit of a journal: a script that makes its events again.
ghost use Rattle.std.specs.Prelude.{map, flat_map};
ghost use Rattle.share_model.specs.io.Printing.{WritesText};
ghost use Rattle.share_model.specs.text.Audit.{audit, event_line, written_line};
ghost use Rattle.share_journal.specs.Entries.{events_in};

use crate::entry::Entry;
use share_base::Version;
use share_model::{Fault, Line, TellingWriter};
use share_text::{write_event, write_line};

/// Writes the line of the version, and then for each entry the line that makes its event.
pub fn write_audit<V: TellingWriter>(
    version: Version,
    entries: &[Entry],
    output: &mut V,
) -> Result<(), Fault>
    ensures { WritesText V.told V.answers output.old output.new (audit version (events_in entries.now)) result }
{
    write_line(&Line::Audit(version), output)?;
    write_events(entries, output)
}

fn write_events<V: TellingWriter>(entries: &[Entry], output: &mut V) -> Result<(), Fault>
    ensures { WritesText V.told V.answers output.old output.new
        (flat_map written_line (map event_line (events_in entries.now))) result }
{
    let mut rest = entries;
    while let Some((first, after)) = rest.split_first() {
        write_event(&first.event, output)?;
        rest = after;
    }
    Ok(())
}
