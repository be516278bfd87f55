//! The list of the events of a link, in order.
ghost use Rattle.std.specs.Prelude.{◌≡◌, ◌<◌, ◌≤◌, ◌^◌, [], ◌∷◌, length, IfOk, IfErr, None, option_copied};
ghost use Rattle.share_base.specs.Refusal.{IsRefused};
ghost use Rattle.share_base.specs.declared.version.Version.TheVariants.{One};
ghost use Rattle.share_model.specs.io.Printing.{WritesText};
ghost use Rattle.share_model.specs.text.Audit.{audit};
ghost use Rattle.share_core.specs.Life.{life_refusal};
ghost use Rattle.share_journal.specs.Entries.{JournalView, entry_at, with_entries, events_in};

use crate::audit::write_audit;
use crate::entry::Entry;
use share_base::{Refusal, Version};
use share_core::MAX_LIFE;
use share_model::{Fault, TellingWriter};
use std::alloc::Global;
use std::marker::Model;

/// The events of a link, in order, each with its reply and its source. The room for a whole life is made once, so no
/// other call takes memory. A contract sees the life, the version of the link and the list of the entries.
pub struct Journal {
    life: u64,
    version: Version,
    entries: Vec<Entry>,
}

impl Drop for Journal {
    fn drop(self) {
        let Journal {
            life: _,
            version: _,
            entries,
        } = self;
        drop(entries);
    }
}

impl Model for Journal {
    ghost use Rattle.std.specs.Prelude.{◌≤◌, ◌^◌, length, vec_capacity};
    ghost use Rattle.share_journal.specs.Entries.{JournalView};

    ghost Value = { JournalView };

    ghost view = { λ j. record { life = j.life; version = j.version; entries = j.entries.items } };

    ghost invariant = { λ j.
        (length j.entries.items ≤ j.life)
        × (j.life ≤ vec_capacity j.entries)
        × (j.life ≤ 2 ^ 24) };
}

impl Journal {
    /// An empty journal of version 1 for a life of 1 to 2^24 events, with room for all of them. Refusals, in order:
    /// `Range` if the life is another number, `NoMemory` if the room was refused.
    pub fn new(alloc: Global, life: u64) -> Result<Journal, Refusal>
        ensures ok { IfOk result (λ j.
            (j ≡ record { life = life; version = One; entries = [] })
            × (life_refusal life ≡ None)) }
        ensures refused { IfErr result (IsRefused (life_refusal life)) }
    {
        if life < 1 || life > MAX_LIFE {
            return Err(Refusal::Range);
        }
        let entries = Vec::with_capacity(alloc, life as usize)?;
        Ok(Journal {
            life,
            version: Version::One,
            entries,
        })
    }

    /// The number of entries that it has room for.
    pub fn life(&self) -> u64
        ensures { result ≡ self.now.life }
    {
        self.life
    }

    /// The version of its audit, which is 1 unless `choose` chose another.
    pub fn version(&self) -> Version
        ensures { result ≡ self.now.version }
    {
        self.version
    }

    /// Chooses the version of a journal that holds no entry.
    pub fn choose(&mut self, version: Version)
        requires { length self.old.entries ≡ 0 }
        ensures { self.new ≡ record self.old { version = version } }
    {
        self.version = version;
    }

    /// The number of entries that it holds, at most its life.
    pub fn len(&self) -> u64
        ensures count { result ≡ length self.now.entries }
        ensures most { result ≤ self.now.life }
    {
        self.entries.len() as u64
    }

    /// The entry of a number, from 1. `None` if no entry has this number.
    pub fn entry(&self, number: u64) -> Option<&Entry>
        ensures { option_copied result ≡ entry_at self.now.entries number }
    {
        if number < 1 || number > self.entries.len() as u64 {
            return None;
        }
        Some(&self.entries[(number - 1) as usize])
    }

    /// All entries, in order.
    pub fn entries(&self) -> &[Entry]
        ensures { result.now ≡ self.now.entries }
    {
        self.entries.as_slice()
    }

    /// Puts an entry at the end of a journal that is not full. It takes no memory.
    pub fn push(&mut self, entry: Entry)
        requires { length self.old.entries < self.old.life }
        ensures { self.new ≡ with_entries self.old (entry ∷ []) }
    {
        self.entries.push_reserved(entry);
    }

    /// Writes the audit. Its first line is `audit 1` or `audit 2`, by its version. Then comes for each entry, in order,
    /// the line that makes its event again. A command is spelled as its line, and a packet as `send` with the audit
    /// copy of its payload. A write of k bytes is spelled as `turn k`, and a fault as `torn`. It takes no memory: each
    /// line is put together on the stack, and a writer that accepts it whole is called once for it. If an offer is
    /// refused, a beginning of the audit was written.
    pub fn audit<V: TellingWriter>(&self, output: &mut V) -> Result<(), Fault>
        ensures { WritesText V.told V.answers output.old output.new
            (audit self.now.version (events_in self.now.entries)) result }
    {
        write_audit(self.version, self.entries.as_slice(), output)
    }
}
