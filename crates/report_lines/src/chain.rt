//! Headers by name.

ghost use Rattle.std.specs.Prelude.{◌≡◌, ◌+◌, ◌^◌, ◌++◌, ◌<◌, ◌≤◌, true, IfOk, OnOk, ◌∷◌, [], drop, length};
ghost use Rattle.std.specs.Prelude.{slice_index_or};
ghost use Rattle.msg_core.specs.Headers.{most_headers};
ghost use Rattle.std.specs.List.{join_by};
ghost use Rattle.std.specs.Fmt.{decimal};
ghost use Rattle.stack_judge.specs.Answer.{stack_tree};
ghost use Rattle.run_mean.specs.Text.{chain_text};
ghost use Rattle.report_lines.specs.Lead.{lead};
ghost use Rattle.report_lines.specs.Nones.{slashed_headers, header_front, none_of, nones, slashed_header};

use crate::line::Line;
use crate::named::NamedStack;
use crate::names;
use msg_core::{Fields, Header, Headers, Memory};

/// The separator that stands before piece `k`.
#[tactic(auto, using(crate::proofs::Joined::lead_later))]
pub fn push_lead(line: &mut Line, separator: &[u8], k: u32) -> Result<(), Memory>
    ensures { OnOk result (line.new ≡ line.old ++ lead separator.now k) }
{
    if k > 0 { line.text(separator) } else { Ok(()) }
}

/// The numbers of a header, with commas between.
pub(crate) fn push_fields(line: &mut Line, fields: &Fields) -> Result<(), Memory>
    ensures { OnOk result (line.new ≡ line.old ++ join_by decimal (44 ∷ []) fields.now) }
{
    for k in 0..fields.len() {
        push_lead(line, b",", k)?;
        line.number(u64::from(fields.at(k)))?;
    }
    Ok(())
}

/// Whether a header is the header `none` of its place.
fn is_none(header: &Header) -> bool
    ensures { result ≡ true → header.now ≡ none_of header.now.layer }
{
    if header.tag != 0 {
        return false;
    }
    header.fields.len() == 0
}

/// Whether the header number `k` is the header `none` of this place.
fn is_none_of(headers: &[Header], k: usize, place: u8) -> bool
    ensures { result ≡ true → drop k headers.now ≡ none_of place ∷ drop (k + 1) headers.now }
{
    if k >= headers.len() {
        return false;
    }
    let header = &headers[k];
    if header.layer != place {
        return false;
    }
    is_none(header)
}

/// How many headers from number `k` on are `none`, of one place after the other from `first` on: at most `most`.
fn count_nones(headers: &[Header], k: usize, first: u8, most: u8) -> u8
    requires few { (k ≤ most_headers) × (0 < most) × (first + most < 2 ^ 8) }
    requires first { drop k headers.now ≡ none_of first ∷ drop (k + 1) headers.now }
    ensures nones { drop k headers.now ≡ nones first result ++ drop (k + result) headers.now }
    ensures few { (0 < result) × (result ≤ most) }
{
    for count in 1..most {
        if !is_none_of(headers, k + usize::from(count), first + count) {
            return count;
        }
    }
    most
}

/// `LAYER.HEADER(`: the text that is laid out, where the header is declared.
fn push_front(line: &mut Line, stack: &NamedStack, header: &Header) -> Result<(), Memory>
    ensures { OnOk result (line.new ≡ line.old ++ header_front (stack_tree stack.now) header.now) }
{
    match stack.front(header.layer, header.tag) {
        Some(text) => line.text(text),
        None => names::push_front(line, stack.stack(), header),
    }
}

/// `F,F)/`
fn push_closed(line: &mut Line, fields: &Fields) -> Result<(), Memory>
    ensures { OnOk result (line.new ≡ line.old ++ join_by decimal (44 ∷ []) fields.now ++ 41 ∷ 47 ∷ []) }
{
    if fields.len() == 1 {
        return line.closed_number(fields.at(0));
    }
    push_fields(line, fields)?;
    line.text(b")/")
}

/// `LAYER.HEADER(F,F)/`
fn push_header(line: &mut Line, stack: &NamedStack, header: &Header) -> Result<(), Memory>
    ensures { OnOk result (line.new ≡ line.old ++ slashed_header (stack_tree stack.now) header.now) }
{
    push_front(line, stack, header)?;
    push_closed(line, &header.fields)
}

/// Appends the headers `none` of adjacent places from number `k` on, each with `/` after it, and answers how many
/// these are.
fn push_nones(
    line: &mut Line,
    stack: &NamedStack,
    headers: &[Header],
    k: usize,
    first: u8,
) -> Result<u8, Memory>
    requires few { (k ≤ most_headers) × (first < length (stack_tree stack.now)) }
    requires first { drop k headers.now ≡ none_of first ∷ drop (k + 1) headers.now }
    ensures { IfOk result
        (λ count. (0 < count) × (line.new ++ slashed_headers (stack_tree stack.now) (drop (k + count) headers.now)
        ≡ line.old ++ slashed_headers (stack_tree stack.now) (drop k headers.now))) }
{
    let count = count_nones(headers, k, first, stack.places() - first);
    line.text(stack.nones(first, count))?;
    Ok(count)
}

/// Appends the header number `k`, and those after it that go in one piece with it, each with `/` after it, and
/// answers how many these are: those that are `none` of adjacent places, or else one.
fn push_from(
    line: &mut Line,
    stack: &NamedStack,
    headers: &[Header],
    k: usize,
    header: &Header,
) -> Result<u8, Memory>
    requires few { k ≤ most_headers }
    requires header { (k < length headers.now) × (header.now ≡ slice_index_or headers.now k header.now) }
    ensures { IfOk result
        (λ count. (0 < count) × (line.new ++ slashed_headers (stack_tree stack.now) (drop (k + count) headers.now)
        ≡ line.old ++ slashed_headers (stack_tree stack.now) (drop k headers.now))) }
{
    if header.layer < stack.places() {
        if is_none(header) {
            return push_nones(line, stack, headers, k, header.layer);
        }
    }
    push_header(line, stack, header)?;
    Ok(1)
}

/// Appends all of some headers, each with `/` after it.
fn push_all(line: &mut Line, stack: &NamedStack, headers: &[Header]) -> Result<(), Memory>
    requires { length headers.now ≤ most_headers }
    ensures { OnOk result (line.new ≡ line.old ++ slashed_headers (stack_tree stack.now) headers.now) }
{
    let mut k = 0;
    while k < headers.len() {
        k += usize::from(push_from(line, stack, headers, k, &headers[k])?);
    }
    Ok(())
}

/// Headers, lowest first, with `/` between, or `-` for none.
pub fn push_chain(line: &mut Line, stack: &NamedStack, headers: &Headers) -> Result<(), Memory>
    ensures { OnOk result (line.new ≡ line.old ++ chain_text (stack_tree stack.now) headers.now) }
{
    if headers.len() == 0 {
        return line.text(b"-");
    }
    push_all(line, stack, headers.slice())?;
    line.drop_last();
    Ok(())
}
