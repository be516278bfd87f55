//! The tariffs that the link knows: what a frame costs, and how an account is posted.
ghost use Rattle.std.specs.Prelude.{◌≡◌, ◌<◌, ◌≤◌, ◌^◌, List, IsTrue, is_some};
ghost use Rattle.share_model.specs.link.Tariff.{rate_at, rate_of, units_of, post_of, AreInRange};

/// A tariff: a frame is charged in whole cells of `cell` units and an overhead, and an account grows by `price`
/// for each unit.
#[derive(Clone, Copy, Debug)]
pub struct Rate {
    pub cell: u64,
    pub overhead: u64,
    pub price: u64,
}

/// A shelf of tariffs, numbered from 1.
pub trait Rates {
    ghost use Rattle.share_model.specs.declared.rates.Rate.{Rate};

    /// The tariffs in the order of their numbers.
    ghost rates: { Self → List Rate };

    /// Whether a tariff has this number.
    fn has(&self, number: u64) -> bool
        ensures { result ≡ is_some (rate_at (rates self.now) number) };

    /// The units that a frame of `count` bytes is charged.
    fn units(&self, number: u64, count: u32) -> u64
        requires known { IsTrue (is_some (rate_at (rates self.now) number)) }
        requires few { count < 2 ^ 16 }
        ensures { result ≡ units_of (rate_of (rates self.now) number) count };

    /// The account after `units` units were charged.
    fn post(&self, number: u64, account: u64, units: u64) -> u64
        requires known { IsTrue (is_some (rate_at (rates self.now) number)) }
        requires account { account ≤ 2 ^ 62 }
        requires units { units ≤ 2 ^ 17 }
        ensures { result ≡ post_of (rate_of (rates self.now) number) account units };

    ghost in_range: { (shelf : Self) → AreInRange (rates shelf) };
}
