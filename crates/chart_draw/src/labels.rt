//! The words beside marks.
ghost use Rattle.std.specs.Prelude.{◌≡◌, ◌≢◌, ◌++◌, [], IfOk, None, OnOk, if◌then◌else◌, take};
ghost use Rattle.std.specs.List.{list_all};
ghost use Rattle.hex.specs.Hex.{decode_of};
ghost use Rattle.hex.specs.declared.error.FromHexError.TheVariants.{OutOfMemory};
ghost use Rattle.chart_mean.specs.Label as spec;
ghost use Rattle.chart_mean.specs.Says.{is_one_of};
ghost use Rattle.chart_draw.specs.Reading.{Decodes, says_shown};

use crate::kinds::{is_dull, is_quiet};
use crate::pieces::Pieces;
use crate::says::Says;
use crate::text::Text;
use hex::FromHexError;
use std::alloc::{AllocError, Global};

/// How many digits of a body are shown.
const MOST_SHOWN: usize = 28;

/// Appends the words beside the mark of a line; the headers of one layer may be left out.
pub(crate) fn put_label(
    alloc: Global,
    hide: &[u8],
    says: &Says<'_>,
    text: &mut Text,
) -> Result<(), AllocError>
    ensures { OnOk result (text.new ≡ text.old ++ spec.label_of hide.now (says_shown says.now)) }
{
    match *says {
        Says::Deliver(_, _, body) => put_spoken(alloc, b"delivers", body, text),
        Says::Packet(_, _, _, chain, body) => put_packet(alloc, hide, chain, body, text),
        Says::Out(_) => text.put(b"out"),
        Says::Other(verb, _, detail) => put_other(verb, detail, text),
        Says::Ask(verb, _, body) => put_spoken(alloc, verb, body, text),
        Says::Befall(verb, _, detail) => put_detailed(verb, detail, text),
        _ => Ok(()),
    }
}

/// Appends a verb, and a body after it.
fn put_spoken(alloc: Global, verb: &[u8], body: &[u8], text: &mut Text) -> Result<(), AllocError>
    ensures { OnOk result (text.new ≡ text.old ++ spec.detailed verb.now (spec.body_text body.now)) }
{
    text.put(verb)?;
    text.put(b" ")?;
    put_body(alloc, body, text)
}

/// Appends a verb, and a detail after it.
fn put_detailed(verb: &[u8], detail: &[u8], text: &mut Text) -> Result<(), AllocError>
    ensures { OnOk result (text.new ≡ text.old ++ spec.detailed verb.now detail.now) }
{
    text.put(verb)?;
    text.put(b" ")?;
    text.put(detail)
}

/// Appends a verb with its detail, unless lines with this verb have a sign and no words.
fn put_other(verb: &[u8], detail: &[u8], text: &mut Text) -> Result<(), AllocError>
    ensures { OnOk result (text.new ≡ text.old
        ++ (if is_one_of spec.quiet verb.now then [] else spec.detailed verb.now detail.now)) }
{
    if is_quiet(verb) {
        Ok(())
    } else {
        put_detailed(verb, detail, text)
    }
}

/// Appends the headers of a packet, and its body.
fn put_packet(
    alloc: Global,
    hide: &[u8],
    chain: &[u8],
    body: &[u8],
    text: &mut Text,
) -> Result<(), AllocError>
    ensures { OnOk result (text.new ≡ text.old ++ (spec.chain_text hide.now chain.now ++ spec.body_text body.now)) }
{
    put_chain(hide, chain, text)?;
    put_body(alloc, body, text)
}

/// Appends the headers of a packet that say something, but for those of a layer that is left out.
#[tactic(auto, using(crate::proofs::Loops::header_more))]
fn put_chain(hide: &[u8], chain: &[u8], text: &mut Text) -> Result<(), AllocError>
    ensures { OnOk result (text.new ≡ text.old ++ spec.chain_text hide.now chain.now) }
{
    for header in Pieces::headers(chain) {
        put_header(hide, header, text)?;
    }
    Ok(())
}

/// Appends a header without its layer's name, unless that layer is left out.
fn put_header(hide: &[u8], header: &[u8], text: &mut Text) -> Result<(), AllocError>
    ensures { OnOk result (text.new ≡ text.old ++ spec.header_text hide.now header.now) }
{
    if Pieces::dotted(header).first() == hide {
        Ok(())
    } else {
        put_named(Pieces::after_layer(header).first(), text)
    }
}

/// Appends a header's name with its fields, and a blank after it, unless it says nothing.
fn put_named(name: &[u8], text: &mut Text) -> Result<(), AllocError>
    ensures { OnOk result (text.new ≡ text.old ++ spec.named name.now) }
{
    if is_dull(name) {
        return Ok(());
    }
    text.put(name)?;
    text.put(b" ")
}

/// Appends the beginning of a body: text where its bytes can be read, and else digits.
fn put_body(alloc: Global, body: &[u8], text: &mut Text) -> Result<(), AllocError>
    ensures { OnOk result (text.new ≡ text.old ++ spec.body_text body.now) }
{
    if body == b"-".as_slice() {
        Ok(())
    } else {
        put_beginning(alloc, body, text)
    }
}

/// Appends the beginning of a body that isn't empty.
fn put_beginning(alloc: Global, body: &[u8], text: &mut Text) -> Result<(), AllocError>
    ensures { OnOk result (text.new ≡ text.old ++ spec.beginning body.now) }
{
    put_digits(alloc, first_digits(body), text)?;
    put_points(body, text)
}

/// The digits of a body that are shown.
fn first_digits(body: &[u8]) -> &[u8]
    ensures { result.now ≡ take spec.most_shown body.now }
{
    &body[..MOST_SHOWN.min(body.len())]
}

/// Appends two points where a body goes on.
fn put_points(body: &[u8], text: &mut Text) -> Result<(), AllocError>
    ensures { OnOk result (text.new ≡ text.old ++ spec.points body.now) }
{
    if body.len() > MOST_SHOWN {
        text.put(b"..")
    } else {
        Ok(())
    }
}

/// Appends what digits spell.
fn put_digits(alloc: Global, digits: &[u8], text: &mut Text) -> Result<(), AllocError>
    ensures { OnOk result (text.new ≡ text.old ++ spec.spelled digits.now (decode_of digits.now)) }
{
    match decoded(alloc, digits)? {
        Some(bytes) => put_readable(digits, &bytes, text),
        None => text.put(digits),
    }
}

/// Appends bytes between quotes where all can be read, and else the digits that spell them.
fn put_readable(digits: &[u8], bytes: &[u8], text: &mut Text) -> Result<(), AllocError>
    ensures { OnOk result (text.new ≡ text.old
        ++ (if list_all spec.is_readable bytes.now then spec.quoted bytes.now else digits.now)) }
{
    if are_readable(bytes) {
        put_quoted(bytes, text)
    } else {
        text.put(digits)
    }
}

/// Appends bytes between quotes.
fn put_quoted(bytes: &[u8], text: &mut Text) -> Result<(), AllocError>
    ensures { OnOk result (text.new ≡ text.old ++ spec.quoted bytes.now) }
{
    text.put(b"\"")?;
    text.put(bytes)?;
    text.put(b"\"")
}

/// Whether all bytes can be read as text.
fn are_readable(bytes: &[u8]) -> bool
    ensures { result ≡ list_all spec.is_readable bytes.now }
{
    bytes.iter().all(|byte| is_readable(*byte))
}

/// Whether a byte can be read as text.
fn is_readable(byte: u8) -> bool
    ensures { result ≡ spec.is_readable byte }
{
    b' ' <= byte && byte <= b'~'
}

/// The bytes that digits spell, or nothing where they spell none.
fn decoded(alloc: Global, digits: &[u8]) -> Result<Option<Vec<u8>>, AllocError>
    ensures { IfOk result (Decodes (decode_of digits.now)) }
{
    match hex::decode(alloc, digits) {
        Ok(bytes) => Ok(Some(bytes)),
        Err(cause) => not_decoded(cause),
    }
}

/// Nothing, unless memory ran out.
fn not_decoded(cause: FromHexError) -> Result<Option<Vec<u8>>, AllocError>
    ensures { IfOk result (λ found. (found ≡ None) × (cause ≢ OutOfMemory)) }
{
    match cause {
        FromHexError::OutOfMemory => Err(AllocError),
        _ => Ok(None),
    }
}
