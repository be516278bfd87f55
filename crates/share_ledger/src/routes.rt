//! Routes of the tickets that have a holder.

/// A ticket that has a holder, with its amount and two places. They are that of its denomination among the currencies,
/// and that of its holder among the currencies or among the flows.
#[derive(Clone, Copy, Debug)]
pub(crate) struct Route {
    pub(crate) from: usize,
    pub(crate) to: usize,
    pub(crate) amount: u32,
}
