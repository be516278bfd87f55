//! The findings of a start in a folder of books.
ghost use Rattle.std.specs.Prelude.{◌≡◌, ◌+◌, ◌-◌, ◌^◌, max, MatchOption};
ghost use Rattle.share_catalog.specs.Folder.{greatest, IsWholeLines};

use memchr::memrchr;

/// The number of the next book, one above the greatest of these, which are those of all files and rows; 1 if there are
/// none. `None` if no number is left.
pub fn next_number(numbers: &[u64]) -> Option<u64>
    ensures { MatchOption result (greatest numbers.now ≡ 2 ^ 64 - 1) (λ next. next ≡ greatest numbers.now + 1) }
{
    greatest(numbers).checked_add(1)
}

// The greatest of these numbers, and 0 if there are none.
fn greatest(numbers: &[u64]) -> u64
    ensures { result ≡ greatest numbers.now }
{
    let mut most = 0;
    for number in numbers {
        most = larger(most, *number);
    }
    most
}

fn larger(one: u64, other: u64) -> u64
    ensures { result ≡ max one other }
{
    if one < other { other } else { one }
}

/// The length of the whole lines of a text in bytes, with their line feeds. The bytes after them are a line that was
/// cut.
pub fn whole_lines(text: &[u8]) -> usize
    ensures { IsWholeLines text.now result }
{
    match memrchr(b'\n', text) {
        None => 0,
        Some(at) => at + 1,
    }
}
