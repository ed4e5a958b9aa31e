//! The lines of a report that a picture shows.
ghost use Rattle.std.specs.Prelude.{◌≡◌, ◌+◌, ◌*◌, ◌≤◌, ◌<◌, IfOk, drop, length, map, min};
ghost use Rattle.std.specs.List.{list_any};
ghost use Rattle.audit_mean.specs.Text.{lines_of};
ghost use Rattle.chart_mean.specs.Label.{label_of};
ghost use Rattle.chart_mean.specs.Place as spec;
ghost use Rattle.chart_mean.specs.Says.{is_reception};
ghost use Rattle.chart_mean.specs.Mark.{are_told};
ghost use Rattle.chart_mean.specs.Picture.{in_range};
ghost use Rattle.chart_draw.specs.Reading.{excerpt_shown, line_shown, says_shown, texts_shown};

use crate::labels::put_label;
use crate::pieces::Pieces;
use crate::place::FIRST_X;
use crate::says::{Says, says_of};
use crate::text::Text;
use crate::words::Excerpt;
use std::alloc::{AllocError, Global};

/// How many bytes of a line's words count for its room.
const MOST_BYTES: usize = 60;

/// A line of a report in a picture: its number in the report, its place, its text and what it says.
#[derive(Clone, Copy)]
pub(crate) struct DrawnLine<'a> {
    pub number: u64,
    pub x: u64,
    pub text: &'a [u8],
    pub says: Says<'a>,
}

/// The lines of a text.
#[tactic(auto, using(crate::proofs::Loops::line_more))]
pub(crate) fn all_lines<'a>(alloc: Global, text: &'a [u8]) -> Result<Vec<&'a [u8]>, AllocError>
    requires { length text.now ≤ 67108864 }
    ensures lines { IfOk result (λ lines. texts_shown lines.items ≡ lines_of text.now) }
    ensures few { IfOk result (λ lines. length lines.items ≤ 67108865) }
{
    let mut lines = Vec::new(alloc);
    for line in Pieces::lines(text) {
        lines.push(line)?;
    }
    Ok(lines)
}

/// Those of the lines that are in a range.
#[tactic(auto, using(crate::proofs::Loops::ranged))]
pub(crate) fn in_range<'t, 'a>(excerpt: Excerpt<'_>, texts: &'t [&'a [u8]]) -> &'t [&'a [u8]]
    ensures lines { texts_shown result.now ≡ in_range (excerpt_shown excerpt.entry) (texts_shown texts.now) }
    ensures few { length result.now ≤ length texts.now }
{
    let front = &texts[..(excerpt.last as usize).min(texts.len())];
    let start = (excerpt.first as usize).saturating_sub(1);
    &front[start.min(front.len())..]
}

/// The lines of a picture, and where its rows end.
#[derive(Drop)]
pub(crate) struct Layout<'a> {
    pub lines: Vec<DrawnLine<'a>>,
    pub end: u64,
}

/// The lines of a picture that begins with the line of this number.
pub(crate) fn placed<'a>(
    alloc: Global,
    hide: &[u8],
    first: u32,
    texts: &[&'a [u8]],
) -> Result<Layout<'a>, AllocError>
    requires { length texts.now ≤ 67108865 }
    ensures lines { IfOk result
        (λ layout. map line_shown layout.lines.items
        ≡ spec.lines_from hide.now first 0 spec.first_x (texts_shown texts.now)) }
    ensures end { IfOk result (λ layout. layout.end ≡ spec.x_after hide.now spec.first_x (texts_shown texts.now)) }
    ensures inside { IfOk result (λ layout. layout.end ≤ 25367151022) }
{
    let mut lines = Vec::with_capacity(alloc, texts.len())?;
    let mut end = FIRST_X;
    for place in 0..texts.len() {
        let next = says_after(texts, place);
        let line = line_at(first, place, end, texts[place], &next);
        end += width_of(alloc, hide, &line.says, &next)?;
        lines.push(line)?;
    }
    Ok(Layout { lines, end })
}

/// What the line after one says, if there is one.
fn says_after<'a>(texts: &[&'a [u8]], place: usize) -> Says<'a>
    requires { place < length texts.now }
    ensures { says_shown result ≡ spec.first_says (texts_shown (drop (place + 1) texts.now)) }
{
    let next = place + 1;
    if next < texts.len() {
        says_of(texts[next])
    } else {
        Says::Aside
    }
}

fn line_at<'a>(first: u32, place: usize, x: u64, text: &'a [u8], next: &Says<'_>) -> DrawnLine<'a>
    requires { place < 67108865 }
    ensures { line_shown result ≡ spec.line_at first place x text.now (says_shown next.now) }
{
    DrawnLine {
        number: u64::from(first) + place as u64,
        x,
        text,
        says: says_of(text).settled(next),
    }
}

/// How much room a line takes before the next.
fn width_of(alloc: Global, hide: &[u8], says: &Says<'_>, next: &Says<'_>) -> Result<u64, AllocError>
    ensures is { IfOk result (λ width. width ≡ spec.width_of hide.now (says_shown says.now) (says_shown next.now)) }
    ensures few { IfOk result (λ width. width ≤ 378) }
{
    match *says {
        Says::Idle(_) => Ok(2),
        _ => worded_width(alloc, hide, says, next),
    }
}

/// How much room a sign and the words beside it take before the next line; of the words 60 bytes count.
fn worded_width(
    alloc: Global,
    hide: &[u8],
    says: &Says<'_>,
    next: &Says<'_>,
) -> Result<u64, AllocError>
    ensures is { IfOk result (λ width. width ≡ 18 + spec.room_of (says_shown says.now) (says_shown next.now)
        * min 60 (length (label_of hide.now (says_shown says.now)))) }
    ensures few { IfOk result (λ width. width ≤ 378) }
{
    let length = label_length(alloc, hide, says)?;
    Ok(18 + room_of(says, next) * MOST_BYTES.min(length) as u64)
}

/// How much room each byte of a line's words takes: half of it where the next line's words stand elsewhere.
fn room_of(says: &Says<'_>, next: &Says<'_>) -> u64
    ensures is { result ≡ spec.room_of (says_shown says.now) (says_shown next.now) }
    ensures few { result ≤ 6 }
{
    if says.words_y() == next.words_y() {
        6
    } else {
        3
    }
}

/// How many bytes the words of a line have.
fn label_length(alloc: Global, hide: &[u8], says: &Says<'_>) -> Result<usize, AllocError>
    ensures { IfOk result (λ count. count ≡ length (label_of hide.now (says_shown says.now))) }
{
    let mut label = Text::new(alloc);
    put_label(alloc, hide, says, &mut label)?;
    Ok(label.bytes().len())
}

/// Whether lines tell of receptions.
#[tactic(auto, using(crate::proofs::Loops::told_shown))]
pub(crate) fn are_told(lines: &[DrawnLine<'_>]) -> bool
    ensures { result ≡ are_told (map line_shown lines.now) }
{
    has_reception(lines)
}

fn has_reception(lines: &[DrawnLine<'_>]) -> bool
    ensures { result ≡ list_any (λ line. is_reception (says_shown line.says)) lines.now }
{
    lines.iter().any(|line| line.says.is_reception())
}

/// The number of rows of a picture.
#[tactic(auto, using(crate::proofs::Loops::rows_more))]
pub(crate) fn count_rows(lines: &[DrawnLine<'_>]) -> u32
    ensures { result ≡ spec.rows (map line_shown lines.now) }
{
    let mut most = 0;
    for line in lines {
        most = most.max(line.says.rows());
    }
    most
}
