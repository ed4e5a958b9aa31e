//! Where a member is reached, as a word.
ghost use Rattle.std.specs.Prelude.{◌≡◌, ◌==◌, ◌∷◌, []};
ghost use Rattle.std.specs.List.{slice_split};
ghost use Rattle.script_mean.specs.Address as spec;

use crate::splits::cut;
use crate::values::number_within;
use outside::Peer;

/// The peer at `A.B.C.D:PORT`.
pub(crate) fn peer_of(word: &[u8]) -> Option<Peer>
    ensures { result ≡ spec.peer_of word.now }
{
    let (host, following) = cut(b':', word);
    let (port, following) = cut(b':', following?);
    if following.is_some() {
        return None;
    }
    let ip = octets_of(host)?;
    let port = number_within(0, 65535, port)? as u16;
    Some(Peer { ip, port })
}

fn octets_of(host: &[u8]) -> Option<[u8; 4]>
    ensures { result ≡ spec.octets_of (slice_split (λ byte. byte == 46) host.now) }
{
    let (one, following) = cut(b'.', host);
    let (two, following) = cut(b'.', following?);
    let (three, following) = cut(b'.', following?);
    let (four, following) = cut(b'.', following?);
    if following.is_some() {
        return None;
    }
    octets(one, two, three, four)
}

fn octets(one: &[u8], two: &[u8], three: &[u8], four: &[u8]) -> Option<[u8; 4]>
    ensures { result ≡ spec.octets_of (one.now ∷ two.now ∷ three.now ∷ four.now ∷ []) }
{
    Some([octet(one)?, octet(two)?, octet(three)?, octet(four)?])
}

fn octet(word: &[u8]) -> Option<u8>
    ensures { result ≡ spec.octet_of word.now }
{
    Some(number_within(0, 255, word)? as u8)
}
