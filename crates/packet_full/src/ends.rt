//! The two ends of reading a datagram, whatever its form: the preamble, and the body.

ghost use Rattle.std.specs.Prelude.{◌≡◌, ◌==◌, ◌||◌, ◌-◌, ◌≤◌, true, IfOk, Some, length};
ghost use Rattle.msg_core.specs.Parts.{longest_body};
ghost use Rattle.packet_mean.specs.Reading.{preamble};
ghost use Rattle.packet_mean.specs.Spelling.{full_form, short_form};
ghost use Rattle.packet_full.specs.Steps.{Closes, Opens, opened};
ghost use Rattle.packet_full.specs.Scanned.{IsAfter};
ghost use Rattle.packet_full.specs.Taking.{IsOwn, left, preamble_tree};

use crate::cursor::Cursor;
use crate::front::{Preamble, is_form, meant_for};
use crate::opened::Opened;
use crate::scan::Scan;
use msg_core::{LONGEST_BODY, Stray};
use packet_mean::Here;

/// The preamble of a datagram that has one of the two forms and is meant for a member; or the first cause for which the
/// datagram isn't such a one.
#[inline]
#[tactic(auto, unfolding(crate::specs::Steps::opened))]
pub fn open<'a>(here: &Here, bytes: &'a [u8]) -> Result<Opened<'a>, Stray>
    ensures front { Opens (opened here.now bytes.now) result }
    ensures read { IfOk result (λ o. preamble bytes.now ≡ Some (preamble_tree o.front, left o.cursor)) }
    ensures form { IfOk result (λ o. ((o.front.form == full_form) || (o.front.form == short_form)) ≡ true) }
    ensures own { IfOk result (λ o. IsOwn here.now o.front) }
{
    let mut cursor = Cursor::new(bytes);
    let Some(front) = cursor.preamble() else {
        return Err(Stray::Short)
    };
    if !is_form(front.form) {
        return Err(Stray::Form);
    }
    match meant_for(here, &front) {
        Ok(()) => Ok(Opened { front, cursor }),
        Err(cause) => Err(cause),
    }
}

/// Where the bytes that are left of a datagram begin.
fn body_place(bytes: &[u8], cursor: &Cursor<'_>) -> u32
    requires { IsAfter (left cursor.now) bytes.now }
    ensures place { result ≡ length bytes.now - length (left cursor.now) }
{
    (bytes.len() - cursor.len()) as u32
}

/// Completes a scan into which the headers of a datagram were read: the bytes that are left are its body. Err where the
/// body is too long.
pub fn close(
    bytes: &[u8],
    front: &Preamble,
    cursor: &Cursor<'_>,
    scan: &mut Scan,
) -> Result<(), Stray>
    requires { length (left cursor.now) ≤ longest_body → IsAfter (left cursor.now) bytes.now }
    ensures { Closes bytes.now front.now scan.old.headers (left cursor.now) result scan.new }
{
    if cursor.len() > LONGEST_BODY as usize {
        return Err(Stray::Body);
    }
    scan.sender = front.sender;
    scan.dest = front.dest;
    scan.body = body_place(bytes, cursor);
    Ok(())
}
