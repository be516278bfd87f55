//! Laws of every tariff. A function here does nothing. Its contract is a law, and is proved.
ghost use Rattle.std.specs.Prelude.{◌≡◌, ◌<◌, ◌≤◌, ◌+◌, ◌*◌, ℕ};
ghost use Rattle.share_model.specs.declared.rates.Rate.{Rate};
ghost use Rattle.share_model.specs.link.Tariff.{units_of};

/// Bytes fill whole cells. No bytes are charged no units; otherwise the units are the overhead and the fewest whole
/// cells that hold the bytes.
pub fn bytes_fill_whole_cells()
    ensures none { (rate : Rate) → units_of rate 0 ≡ 0 }
    ensures some { (rate : Rate) (count : ℕ) → 1 ≤ rate.cell → 1 ≤ count
        → (cells : ℕ) × (units_of rate count ≡ rate.overhead + rate.cell * cells)
        × (count ≤ rate.cell * cells) × (rate.cell * cells < count + rate.cell) }
{}
