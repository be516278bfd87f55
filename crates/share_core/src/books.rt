//! The books of the open flows: their tariffs, their accounts, and which of them are held.
ghost use Rattle.std.specs.Prelude.{◌≡◌, ◌<◌, ◌≤◌, ◌^◌, ◌+◌, [], ◌∷◌, ◌++◌, length, position, find, IfOk, None};
ghost use Rattle.std.specs.Prelude.{Some, IsSome, IsTrue, is_some, option_copied};
ghost use Rattle.std.specs.Set.{remove_key};
ghost use Rattle.share_model.specs.link.Tariff.{rate_at, rate_of, units_of};
ghost use Rattle.share_model.specs.link.Books.{is_book_of, new_book, account_of, tariff_of, units_due, with_units};
ghost use Rattle.share_model.specs.link.Books.{books_with_units, is_held, with_hold, books_with_hold};
ghost use Rattle.share_core.specs.Found.{IfFound};

use crate::{MAX_FLOWS, MAX_FRAME};
use share_base::FlowNo;
use share_model::{Book, Rates};
use std::alloc::{AllocError, Global};
use std::marker::Model;

/// A book for each open flow, in order of opening.
#[derive(Drop)]
pub struct Books {
    books: Vec<Book>,
}

impl Model for Books {
    ghost use Rattle.std.specs.Prelude.{List, ◌≤◌, vec_capacity};
    ghost use Rattle.share_model.specs.declared.link.Book.{Book};
    ghost use Rattle.share_core.specs.declared.TheConstants.{MAX_FLOWS};

    ghost Value = { List Book };

    ghost view = { λ b. b.books.items };

    ghost invariant = { λ b. MAX_FLOWS ≤ vec_capacity b.books };
}

impl Books {
    /// No book, and room for as many as there may be.
    pub fn new(alloc: Global) -> Result<Books, AllocError>
        ensures { IfOk result (λ b. b ≡ []) }
    {
        let books = Vec::with_capacity(alloc, MAX_FLOWS)?;
        Ok(Books { books })
    }

    /// The book of a flow.
    pub fn book(&self, flow: FlowNo) -> Option<&Book>
        ensures { option_copied result ≡ find (is_book_of flow) self.now }
    {
        self.books.iter().find(|book| is_of(book, flow))
    }

    /// Opens the book of a flow. It takes no memory.
    pub fn open(&mut self, flow: FlowNo, tariff: u64)
        requires { length self.old < MAX_FLOWS }
        ensures { self.new ≡ self.old ++ new_book flow tariff ∷ [] }
    {
        self.books.push_reserved(Book {
            flow,
            tariff,
            account: 0,
            held: false,
        });
    }

    // The place of a flow's book.
    fn place(&self, flow: FlowNo) -> usize
        requires { IsSome (find (is_book_of flow) self.now) }
        ensures { position (is_book_of flow) self.now ≡ Some result }
    {
        match place_of(self.books.as_slice(), flow) {
            None => unreachable!(),
            Some(place) => place,
        }
    }

    /// The account of a flow, and 0 if it is not open.
    pub fn account(&self, flow: FlowNo) -> u64
        ensures { result ≡ account_of self.now flow }
    {
        match self.book(flow) {
            None => 0,
            Some(book) => book.account,
        }
    }

    /// The number of the tariff of the flow whose book is at a place.
    pub fn tariff_at(&self, place: usize, flow: FlowNo) -> u64
        requires { position (is_book_of flow) self.now ≡ Some place }
        ensures { result ≡ tariff_of self.now flow }
    {
        let book = &self.books[place];
        book.tariff
    }

    /// Posts the flow whose book is at a place for `count` bytes of a frame, and gives the units that they are charged.
    pub fn charge_at<S: Rates>(&mut self, shelf: &S, place: usize, flow: FlowNo, count: u32) -> u64
        requires there { position (is_book_of flow) self.old ≡ Some place }
        requires known { IfFound (find (is_book_of flow) self.old)
            (λ b. IsTrue (is_some (rate_at (S.rates shelf.now) b.tariff))) }
        requires account { IfFound (find (is_book_of flow) self.old) (λ b. b.account ≤ 2 ^ 62) }
        requires few { count ≤ MAX_FRAME }
        ensures units { result ≡ units_due (S.rates shelf.now) self.old flow count }
        ensures posted { self.new ≡ books_with_units (S.rates shelf.now) self.old flow result }
    {
        let book = &mut self.books[place];
        post(book, shelf, count)
    }

    /// Whether the flow whose book is at a place is held.
    pub fn is_held_at(&self, place: usize, flow: FlowNo) -> bool
        requires { position (is_book_of flow) self.now ≡ Some place }
        ensures { result ≡ is_held self.now flow }
    {
        let book = &self.books[place];
        book.held
    }

    /// Whether a flow is held. No flow is that is not open.
    pub fn is_held(&self, flow: FlowNo) -> bool
        ensures { result ≡ is_held self.now flow }
    {
        match self.book(flow) {
            None => false,
            Some(book) => book.held,
        }
    }

    /// Holds a flow, or ends its hold.
    pub fn hold(&mut self, flow: FlowNo, held: bool)
        requires { IsSome (find (is_book_of flow) self.old) }
        ensures { self.new ≡ books_with_hold self.old flow held }
    {
        let place = self.place(flow);
        let book = &mut self.books[place];
        mark(book, held);
    }

    /// Closes the book of a flow.
    pub fn close(&mut self, flow: FlowNo)
        requires { IsSome (find (is_book_of flow) self.old) }
        ensures { self.new ≡ remove_key (is_book_of flow) self.old }
    {
        let place = self.place(flow);
        self.books.remove(place);
    }
}

// Posts a book for `count` bytes of a frame, and gives the units that they are charged.
fn post<S: Rates>(book: &mut Book, shelf: &S, count: u32) -> u64
    requires known { IsTrue (is_some (rate_at (S.rates shelf.now) book.old.tariff)) }
    requires account { book.old.account ≤ 2 ^ 62 }
    requires few { count ≤ MAX_FRAME }
    ensures units { result ≡ units_of (rate_of (S.rates shelf.now) book.old.tariff) count }
    ensures posted { book.new ≡ with_units (S.rates shelf.now) result book.old }
{
    let units = shelf.units(book.tariff, count);
    book.account = shelf.post(book.tariff, book.account, units);
    units
}

// Marks a book as that of a flow that is held, or not.
fn mark(book: &mut Book, held: bool)
    ensures { book.new ≡ with_hold held book.old }
{
    book.held = held;
}

fn is_of(book: &Book, flow: FlowNo) -> bool
    ensures { result ≡ is_book_of flow book.now }
{
    let own = book.flow;
    flow.number() == own.number()
}

// The place of a flow's book, if there is one.
fn place_of(books: &[Book], flow: FlowNo) -> Option<usize>
    ensures { result ≡ position (is_book_of flow) books.now }
{
    books.iter().position(|book| is_of(book, flow))
}
