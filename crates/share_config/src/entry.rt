//! Lists of a file, whose items are read one after the other.
ghost use Rattle.std.specs.Prelude.{◌≡◌, IfOk, IfErr, Ok, Err, string_bytes};
ghost use Rattle.toml.specs.View.{view, items_view};
ghost use Rattle.share_config.specs.Reading.{each};
ghost use Rattle.share_config.specs.declared.fault.ConfigFault.TheVariants.{NoMemory};

use crate::fault::ConfigFault;
use crate::key::Location;
use std::alloc::Global;
use toml::Value;

/// An entry of a list, which a value says.
pub(crate) trait Entry: Drop + Sized {
    ghost use Rattle.std.specs.Prelude.{ℕ};
    ghost use Rattle.toml.specs.Data.{Data};
    ghost use Rattle.share_config.specs.Reading.{Said};
    ghost use Rattle.share_config.specs.declared.key.Location.{Location};

    /// The meaning of a value that is the item of this number in a list of this table.
    ghost said: { Location → ℕ → Data → Said Self };

    fn read(
        alloc: Global,
        location: Location,
        number: usize,
        value: &Value,
    ) -> Result<Self, ConfigFault>
        ensures ok { IfOk result (λ entry. said location number (view value.now) ≡ Ok entry) }
        ensures fault { IfErr result (λ e. ¬ (e ≡ NoMemory) → said location number (view value.now) ≡ Err e) };
}

/// The entries that the items of a list say.
pub(crate) fn read_all<T: Entry>(
    alloc: Global,
    location: Location,
    values: &[Value],
) -> Result<Vec<T>, ConfigFault>
    ensures ok { IfOk result (λ entries. each (T.said location) 1 (items_view values.now) ≡ Ok entries.items) }
    ensures fault { IfErr result (λ e. ¬ (e ≡ NoMemory) → each (T.said location) 1 (items_view values.now) ≡ Err e) }
{
    let mut entries = Vec::new(alloc);
    for index in 0..values.len() {
        let entry = T::read(alloc, location, index + 1, &values[index])?;
        if entries.push(entry).is_err() {
            return Err(ConfigFault::NoMemory);
        }
    }
    Ok(entries)
}
