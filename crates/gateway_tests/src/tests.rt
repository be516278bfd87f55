//! A gateway's core and the lives of its books in use: worked examples, and what no contract says.

mod addresses;
mod assertions;
mod book_memory;
mod books;
mod carry_memory;
mod carrying;
mod frames;
mod lives;
mod made;
mod orders;
mod outbox;
mod plans;
mod records;
mod replays;
mod settings;
mod stream_memory;
mod tariffs;
mod transit;
