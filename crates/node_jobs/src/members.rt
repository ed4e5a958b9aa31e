//! A node's own members.

ghost use Rattle.std.specs.Prelude.{◌≡◌, ◌<◌, IfOk, nat_lt};
ghost use Rattle.std.specs.List.{AllByRecursion, list_all};

use std::alloc::{AllocError, Global};

/// Whether all are below a number.
pub(crate) fn are_below(ids: &[u32], count: u8) -> bool
    ensures { result ≡ list_all (λ id. nat_lt id count) ids.now }
{
    ids.iter().all(|id| *id < u32::from(count))
}

/// These ids in order, a byte each.
pub(crate) fn as_bytes(alloc: Global, ids: &[u32]) -> Result<Vec<u8>, AllocError>
    requires { AllByRecursion (λ id. id < 256) ids.now }
    ensures { IfOk result (λ bytes. bytes.items ≡ ids.now) }
{
    let mut bytes = Vec::new(alloc);
    for id in ids {
        bytes.push(*id as u8)?;
    }
    Ok(bytes)
}
