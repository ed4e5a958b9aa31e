//! Headers in place, of places whose layers have nothing to say.

ghost use Rattle.std.specs.Prelude.{◌≡◌, ℕ, ◌+◌, ◌≤◌, map};
ghost use Rattle.std.specs.List.{range_with_len};
ghost use Rattle.msg_core.specs.Headers.{most_headers};
ghost use Rattle.layer_mean.specs.Visit.{none_header};

use msg_core::{Fields, Header, Headers};

/// The header `none` of each of `count` places from `first` on.
pub(crate) fn none_headers(first: u8, count: u8) -> Headers
    requires few { count ≤ most_headers }
    requires places { first + count ≤ 256 }
    ensures { result ≡ map none_header (range_with_len first count) }
{
    let mut headers = Headers::new();
    for k in (0..count).rev() {
        headers.push_front(Header {
            layer: first + k,
            tag: 0,
            fields: Fields::new(),
        });
    }
    headers
}
