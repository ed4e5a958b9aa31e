// Counts of failed calls.
ghost use Rattle.std.specs.Prelude.{◌≡◌};
ghost use Rattle.outside.specs.Count.{next_count};

/// A count after one more failed call. It stands still at the last value.
pub(crate) fn count_after(count: u64) -> u64
    ensures { result ≡ next_count count }
{
    if count == u64::MAX { count } else { count + 1 }
}
