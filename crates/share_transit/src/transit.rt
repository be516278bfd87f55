//! The outbox, and the text of a book on its way to the disk.
ghost use Rattle.std.specs.Prelude.{◌≡◌, ◌≤◌, ◌<◌, ◌+◌, ◌-◌, ◌++◌, true, false, length, take, IfOk, IfErr, None};
ghost use Rattle.share_base.specs.Refusal.{IsRefused};
ghost use Rattle.share_gateway.specs.Outbox.{begun_again, frame_bytes, ready_frame, ready_of, room_of, send_more};
ghost use Rattle.share_transit.specs.Transit.{Hands, TurnsInto, empty_transit, handed_count, settled, text_written};

use crate::page::Page;
use share_base::Refusal;
use share_book::{Book, NewBook, Turned};
use share_gateway::Outbox;
use share_model::Rates;
use std::alloc::Global;
use std::collections::VecDeque;
use std::marker::Model;

/// The most frames that an outbox holds.
const MAX_FRAMES: usize = 4096;

/// A frame that the disk's progress does not allow on the wire. It has the end of the text of its turn, counted in
/// bytes of the text of all books, and the frame's length in bytes.
#[derive(Clone, Copy)]
pub struct Due {
    ends: u128,
    count: u32,
}

/// The frames on their way to the wire, and the progress of the text of their turns to the disk. It outlives books:
/// text is counted over all of them. A book is closed only after all its text was handed to the disk.
pub struct Transit {
    outbox: Outbox,
    // The frames that are not allowed on the wire.
    due: VecDeque<Due>,
    // The bytes of text handed to the disk, and those of them that it has written.
    handed: u64,
    written: u64,
}

impl Drop for Transit {
    fn drop(self) {
        let Transit {
            outbox,
            due,
            handed: _,
            written: _,
        } = self;
        drop(outbox);
        drop(due);
    }
}

impl Model for Transit {
    ghost use Rattle.std.specs.Prelude.{◌≤◌, length};
    ghost use Rattle.std.specs.VecDeque.{deque_capacity};
    ghost use Rattle.share_transit.specs.Transit.{TransitView, Trails};

    ghost Value = { TransitView };

    ghost view = { λ t.
        record { outbox = t.outbox; due = t.due.items; handed = t.handed; written = t.written } };

    ghost invariant = { λ t.
        Trails t.outbox t.due.items × (t.written ≤ t.handed) × (4096 ≤ deque_capacity t.due) };
}

impl Transit {
    /// No frames and no text, with the memory for both. `NoMemory` if that is refused.
    pub fn new(alloc: Global) -> Result<Transit, Refusal>
        ensures ok { IfOk result (λ t. t ≡ empty_transit) }
        ensures refused { IfErr result (IsRefused None) }
    {
        let outbox = Outbox::new(alloc)?;
        let due = VecDeque::with_capacity(alloc, MAX_FRAMES)?;
        Ok(Transit {
            outbox,
            due,
            handed: 0,
            written: 0,
        })
    }

    /// Makes a turn of the book. Its frame goes into the outbox, and waits there until the text of its turn is written.
    pub fn turn<S: Rates>(&mut self, book: &mut Book<S>) -> Turned
        ensures turned { TurnsInto self.old book.old.audited result self.new book.new.audited }
        ensures plan { book.new.plan ≡ book.old.plan }
    {
        let turned = book.turn(&mut self.outbox);
        if let Turned::Wrote { count, .. } = turned {
            let ends = u128::from(self.handed) + book.text().len() as u128;
            self.due.push_back_reserved(Due { ends, count });
        }
        turned
    }

    /// Moves the first bytes of the book's text to a page for the disk, as many as have room.
    pub fn hand<S: Rates>(&mut self, book: &mut Book<S>, page: &mut Page)
        ensures handed { Hands self.old book.old.audited page.old self.new book.new.audited page.new }
        ensures plan { book.new.plan ≡ book.old.plan }
    {
        let count = self.give(book.text(), page);
        book.drained(count);
    }

    /// The same for a book that was opened and has not begun.
    pub fn hand_new<S: Rates>(&mut self, book: &mut NewBook<S>, page: &mut Page)
        ensures handed { Hands self.old book.old.audited page.old self.new book.new.audited page.new }
        ensures plan { book.new.plan ≡ book.old.plan }
    {
        let count = self.give(book.text(), page);
        book.drained(count);
    }

    /// Notes the number of bytes that the disk has written, of all that were handed to it. A count below an earlier
    /// one, or above what was handed, means that one. The frames of the turns whose text is written are allowed on the
    /// wire.
    pub fn written(&mut self, total: u64)
        ensures { self.new ≡ text_written total self.old }
    {
        self.written = self.written.max(total.min(self.handed));
        while self.allow_first() {}
    }

    /// The number of bytes of text handed to the disk that it has not written.
    pub fn unwritten(&self) -> u64
        ensures { result ≡ self.now.handed - self.now.written }
    {
        self.handed - self.written
    }

    /// The bytes that may go to the wire next.
    pub fn ready(&self) -> &[u8]
        ensures { result.now ≡ ready_of self.now.outbox }
    {
        self.outbox.ready()
    }

    /// The first frame, if no byte of it is out and all of them may go to the wire, and otherwise no bytes.
    pub fn frame(&self) -> &[u8]
        ensures { result.now ≡ ready_frame self.now.outbox }
    {
        self.outbox.frame()
    }

    /// Marks that many bytes as taken by the wire, the first of those that are ready.
    pub fn sent(&mut self, count: usize)
        requires { count ≤ length (ready_of self.old.outbox) }
        ensures { self.new ≡ record self.old { outbox = send_more count self.old.outbox } }
    {
        self.outbox.sent(count);
    }

    /// Lets what is left begin at the beginning of the frame that was cut, as on a new connection.
    pub fn again(&mut self)
        ensures { self.new ≡ record self.old { outbox = begun_again self.old.outbox } }
    {
        self.outbox.again();
    }

    /// The greatest length of a frame that has room, in bytes.
    pub fn room(&self) -> usize
        ensures { result ≡ room_of self.now.outbox }
    {
        self.outbox.room()
    }

    /// The number of bytes of frames that the wire has not taken.
    pub fn waiting(&self) -> usize
        ensures { result ≡ length (frame_bytes self.now.outbox) - self.now.outbox.out }
    {
        self.outbox.waiting()
    }

    // Puts the first bytes of a text on a page, as many as have room, and returns their number.
    fn give(&mut self, text: &[u8], page: &mut Page) -> usize
        ensures count { result ≡ handed_count self.old page.old text.now }
        ensures transit { self.new ≡ record self.old { handed = self.old.handed + result } }
        ensures page { page.new ≡ page.old ++ take result text.now }
        ensures few { result ≤ length text.now }
    {
        let left = u64::MAX - self.handed;
        let count = page.room().min(text.len()).min(left as usize);
        page.push(&text[..count]);
        self.handed += count as u64;
        count
    }

    // Allows the first frame that is due on the wire, if its text is written. Returns false if it is not, or there is
    // none.
    fn allow_first(&mut self) -> bool
        ensures same { settled self.new ≡ settled self.old }
        ensures fewer { result ≡ true → length self.new.due < length self.old.due }
        ensures last { result ≡ false → settled self.new ≡ self.new }
    {
        let first = match self.due.front() {
            None => return false,
            Some(due) => *due,
        };
        if u128::from(self.written) < first.ends {
            return false;
        }
        self.due.pop_front();
        self.outbox.allow(first.count as usize);
        true
    }
}
