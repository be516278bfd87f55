//! Files of a gateway, right and wrong, their plans, and files that are read again beside what a gateway has.
//!
//! Worked rows of books on disk: what is read and written. Folders of books, in which a close and a recovery make their
//! steps.

mod assertions;
mod books;
mod catalog_rows;
mod changes;
mod files;
mod folders;
mod holds;
mod loading;
mod names;
mod numbers;
mod origins;
mod recoveries;
mod rows;
mod sections;
mod settings;
mod steps;
mod verification;
