//! The keys of a slab by flow number.
ghost use Rattle.std.specs.Prelude.{◌≡◌, ◌<◌, ◌-◌, ◌↔◌, None, IfOk, IfErr, IsTrue, MatchOption, slice_get};
ghost use Rattle.std.specs.FinMap as map;
ghost use Rattle.share_stride.specs.Index.{IsRising, IsAt, IsGapFor};

use crate::table::MAX_CLIENTS;
use share_base::FlowNo;
use std::alloc::{AllocError, Global};
use std::marker::Model;

/// Keys by flow number, in a vector in the order of flow numbers. A contract sees a finite map.
#[derive(Drop)]
pub(crate) struct Index {
    pairs: Vec<(FlowNo, usize)>,
}

impl Model for Index {
    ghost use Rattle.std.specs.Prelude.{ℕ, ◌≤◌, vec_capacity};
    ghost use Rattle.std.specs.Ordering.{nat_cmp};
    ghost use Rattle.std.specs.Coded.{coded_ℕ};
    ghost use Rattle.std.specs.FinMap as map;

    ghost Value = { map.FinMap nat_cmp ℕ };

    ghost coded = { map.code coded_ℕ coded_ℕ };

    ghost use Rattle.share_stride.specs.Index.{key_map, IsRising};
    ghost use Rattle.share_stride.specs.declared.table.TheConstants.{MAX_CLIENTS};

    ghost view = { λ index. key_map index.pairs.items };

    ghost invariant = { λ index. IsRising index.pairs.items × (MAX_CLIENTS ≤ vec_capacity index.pairs) };
}

impl Index {
    /// An empty index with room for the keys of 64 flows. An error if that memory was refused.
    pub(crate) fn new(alloc: Global) -> Result<Index, AllocError>
        ensures { IfOk result (λ index. index ≡ map.empty) }
    {
        Ok(Index {
            pairs: Vec::with_capacity(alloc, MAX_CLIENTS)?,
        })
    }

    /// The key of a flow, if it has one.
    pub(crate) fn get(&self, flow: FlowNo) -> Option<usize>
        ensures { result ≡ map.get self.now flow }
    {
        match place_of(&self.pairs, flow) {
            Err(_) => None,
            Ok(place) => Some(self.pairs[place].1),
        }
    }

    /// Inserts the key of a flow that has none, while there are fewer than 64.
    pub(crate) fn insert(&mut self, flow: FlowNo, key: usize)
        requires absent { map.get self.old flow ≡ None }
        requires room { map.len self.old < MAX_CLIENTS }
        ensures { self.new ≡ map.insert self.old flow key }
    {
        match place_of(&self.pairs, flow) {
            Ok(_) => unreachable!(),
            Err(place) => {
                let _ = self.pairs.insert(place, (flow, key));
            }
        }
    }

    /// Removes the key of a flow, and gives it.
    pub(crate) fn remove(&mut self, flow: FlowNo) -> Option<usize>
        ensures key { result ≡ map.get self.old flow }
        ensures removed { self.new ≡ map.remove self.old flow }
    {
        match place_of(&self.pairs, flow) {
            Err(_) => None,
            Ok(place) => Some(self.pairs.remove(place).1),
        }
    }
}

// The place of a flow's pair, or the one that it would have. If no flow between the first one and it was removed, its
// place is the distance of its number past the first. So that place is tried before the search.
fn place_of(pairs: &[(FlowNo, usize)], flow: FlowNo) -> Result<usize, usize>
    requires { IsRising pairs.now }
    ensures found { IfOk result (IsAt pairs.now flow) }
    ensures absent { IfErr result (IsGapFor pairs.now flow) }
{
    let place = past_first(pairs, flow);
    if place < pairs.len() && is_of(pairs[place], flow) {
        return Ok(place);
    }
    pairs.binary_search_by_key(&flow, |pair| pair.0)
}

// The distance of a flow's number past that of the first pair, and 0 if it is not past it.
fn past_first(pairs: &[(FlowNo, usize)], flow: FlowNo) -> usize
    ensures { MatchOption (slice_get pairs.now 0) (result ≡ 0) (λ first. result ≡ flow - first.0) }
{
    match pairs.first() {
        None => 0,
        Some((first, _)) => flow.number().saturating_sub(first.number()) as usize,
    }
}

// Whether a pair is that of a flow.
fn is_of(pair: (FlowNo, usize), flow: FlowNo) -> bool
    ensures { IsTrue result ↔ (pair.0 ≡ flow) }
{
    pair.0.number() == flow.number()
}
