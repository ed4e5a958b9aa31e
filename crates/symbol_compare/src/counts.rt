//! How often cells were written.

ghost use Rattle.std.specs.Prelude.{◌≡◌, ℕ, OnOk};
ghost use Rattle.symbol_compare.specs.Counts.{Counted, count_in};

use std::alloc::{AllocError, Global};
use std::collections::HashMap;

/// How often each cell was written, by its place and its number there.
#[derive(Drop)]
pub(crate) struct Counts {
    pub counts: HashMap<(u8, u8), u32>,
}

/// No cell was written.
pub(crate) fn no_counts(alloc: Global) -> Counts
    ensures { (p c : ℕ) → count_in result p c ≡ 0 }
{
    Counts {
        counts: HashMap::new(alloc),
    }
}

/// How often a cell was written.
pub(crate) fn count_of(counts: &Counts, place: u8, cell: u8) -> u32
    ensures { result ≡ count_in counts.now place cell }
{
    counts.counts.get(&(place, cell)).copied().unwrap_or(0)
}

/// A cell was written once more.
pub(crate) fn count_write(counts: &mut Counts, place: u8, cell: u8) -> Result<(), AllocError>
    ensures { OnOk result (Counted counts.old counts.new place cell) }
{
    let count = count_of(counts, place, cell);
    if count == u32::MAX {
        return Err(AllocError);
    }
    counts.counts.insert((place, cell), count + 1)?;
    Ok(())
}
