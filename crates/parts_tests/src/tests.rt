//! Tests of the parts of a link beside their contracts: worked rows, texts, memory, and the numbers of calls.

mod allocator;
mod assertions;
mod base;
mod flows;
mod frame;
mod ingress;
mod ledger;
mod model;
mod steps;
mod stride;
mod tariff;
