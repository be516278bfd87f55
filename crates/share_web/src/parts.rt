//! Texts that are put together from parts.
ghost use Rattle.std.specs.Prelude.{◌≡◌, ◌++◌, OnOk};
ghost use Rattle.share_web.specs.Parts.{three};

use std::alloc::AllocError;

/// Adds three parts to a text.
#[tactic(auto, unfolding(crate::specs::Parts::three))]
pub fn push_three(
    text: &mut Vec<u8>,
    first: &[u8],
    second: &[u8],
    third: &[u8],
) -> Result<(), AllocError>
    ensures { OnOk result (text.new.items ≡ text.old.items ++ three first.now second.now third.now) }
{
    text.extend_from_slice(first)?;
    text.extend_from_slice(second)?;
    text.extend_from_slice(third)
}
