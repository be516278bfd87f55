//! Tariffs that store the closures by which a link charges and posts, and the shelf that holds them.
#![tactic(auto)]

mod laws;
mod plain;
mod plain_shelf;
mod shelf;
mod tariff;

pub use laws::bytes_fill_whole_cells;
pub use plain::{account_after, units_by_division};
pub use plain_shelf::PlainShelf;
pub use shelf::{MAX_TARIFFS, Shelf};
pub use tariff::{BookFn, ChargeFn, Tariff};
