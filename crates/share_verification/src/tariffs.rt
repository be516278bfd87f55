//! The tariffs in the file beside an open book.
ghost use Rattle.std.specs.Prelude.{◌≡◌, ◌++◌, codes};
ghost use Rattle.share_catalog.specs.Reads.{Reads};
ghost use Rattle.share_catalog.specs.Texts.{AreTariffs};
ghost use Rattle.share_verification.specs.Lines.{tariffs_line};

use share_catalog::Tariffs;

/// The tariffs whose line these bytes are, with its line feed. `None` if they are no such line.
pub fn read_tariffs(bytes: &[u8]) -> Option<Tariffs>
    ensures { Reads tariffs_line AreTariffs bytes.now result }
{
    let (last, line) = bytes.split_last()?;
    if *last != b'\n' {
        return None;
    }
    Tariffs::read(line)
}
