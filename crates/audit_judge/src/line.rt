//! The lines of a report, one by one.
ghost use Rattle.std.specs.Prelude.{◌≡◌, bytes_eq};
ghost use Rattle.std.specs.List.{list_any};
ghost use Rattle.script_mean.specs.Words.{words_of};
ghost use Rattle.audit_mean.specs.Line as spec;
ghost use Rattle.audit_judge.specs.Reading.{Says, parts_left};

use crate::parts::Parts;
use msg_core::LAST_MEMBER;

/// The highest number of 32 bits, such as a peer and a logical time are.
const HIGHEST: u64 = 4_294_967_295;

/// The highest number of 64 bits, such as counts of lines and visits are.
const HIGHEST_COUNT: u64 = 18_446_744_073_709_551_615;

/// The first words of the lines that no law looks at, whatever follows them.
static SKIPPED: [&[u8]; 12] = [
    b"block",
    b"announce",
    b"timer",
    b"packet",
    b"refused",
    b"absent",
    b"state",
    b"cell",
    b"wire",
    b"lost",
    b"deaf",
    b">",
];

/// What a line says, as far as the laws of a group look at it.
#[derive(Clone, Copy)]
pub(crate) enum LineMeaning<'a> {
    /// The member delivers a cast of the peer with this body, which is kept as it is spelled.
    Deliver(u8, u32, &'a [u8]),
    /// The member is in the view of this logical time and mask.
    View(u8, u32, u32),
    /// The member is out.
    Out(u8),
    End,
    Visits,
    Silent,
}

/// What a line says, if it is in form.
pub(crate) fn line_said(line: &[u8]) -> Option<LineMeaning<'_>>
    ensures { Says (spec.any_line (words_of line.now)) result }
{
    let mut words = Parts::words(line);
    let verb = words.next()?;
    after_first(verb, words)
}

fn after_first<'a>(verb: &[u8], words: Parts<'a>) -> Option<LineMeaning<'a>>
    ensures { Says (spec.after_first verb.now (parts_left words.entry)) result }
{
    if verb == b"deliver".as_slice() {
        deliver(words)
    } else if verb == b"view".as_slice() {
        view(words)
    } else if verb == b"out".as_slice() {
        out(words)
    } else if verb == b"end".as_slice() {
        end(words)
    } else if verb == b"visits".as_slice() {
        visits(words)
    } else if is_skipped(verb) {
        Some(LineMeaning::Silent)
    } else {
        None
    }
}

fn deliver(mut words: Parts<'_>) -> Option<LineMeaning<'_>>
    ensures { Says (spec.deliver_line (parts_left words.entry)) result }
{
    let member = words.number(u64::from(LAST_MEMBER))? as u8;
    let kind = words.next()?;
    if kind == b"cast".as_slice() {
        delivered_cast(member, words)
    } else if kind == b"send".as_slice() {
        delivered_send(words)
    } else {
        None
    }
}

fn delivered_cast(member: u8, mut words: Parts<'_>) -> Option<LineMeaning<'_>>
    ensures { Says (spec.delivered_cast member (parts_left words.entry)) result }
{
    let peer = words.number(HIGHEST)? as u32;
    let body = words.body()?;
    words.end()?;
    Some(LineMeaning::Deliver(member, peer, body))
}

fn delivered_send(mut words: Parts<'_>) -> Option<LineMeaning<'_>>
    ensures { Says (spec.delivered_send (parts_left words.entry)) result }
{
    let _peer = words.number(HIGHEST)?;
    let _body = words.body()?;
    words.end()?;
    Some(LineMeaning::Silent)
}

fn view(mut words: Parts<'_>) -> Option<LineMeaning<'_>>
    ensures { Says (spec.view_line (parts_left words.entry)) result }
{
    let member = words.number(u64::from(LAST_MEMBER))? as u8;
    let ltime = words.number(HIGHEST)? as u32;
    let mask = words.number(HIGHEST)? as u32;
    words.end()?;
    Some(LineMeaning::View(member, ltime, mask))
}

fn out(mut words: Parts<'_>) -> Option<LineMeaning<'_>>
    ensures { Says (spec.out_line (parts_left words.entry)) result }
{
    let member = words.number(u64::from(LAST_MEMBER))? as u8;
    words.end()?;
    Some(LineMeaning::Out(member))
}

fn end(mut words: Parts<'_>) -> Option<LineMeaning<'_>>
    ensures { Says (spec.count_line spec.end (parts_left words.entry)) result }
{
    let _count = words.number(HIGHEST_COUNT)?;
    words.end()?;
    Some(LineMeaning::End)
}

fn visits(mut words: Parts<'_>) -> Option<LineMeaning<'_>>
    ensures { Says (spec.count_line spec.visits (parts_left words.entry)) result }
{
    let _count = words.number(HIGHEST_COUNT)?;
    words.end()?;
    Some(LineMeaning::Visits)
}

fn is_skipped(verb: &[u8]) -> bool
    ensures { result ≡ spec.is_skipped verb.now }
{
    is_one_of(verb, &SKIPPED)
}

fn is_one_of(verb: &[u8], words: &[&[u8]]) -> bool
    ensures { result ≡ list_any (λ word. bytes_eq verb.now word.now) words.now }
{
    words.iter().any(|word| verb == *word)
}
