//! The comments that tell of a breach.

ghost use Rattle.std.specs.Prelude.{◌≡◌, ◌==◌, ◌++◌, [], IfOk, OnOk, drop, slice_index_or};
ghost use Rattle.std.specs.List.{slice_split};
ghost use Rattle.script_text.specs.Parts.{parts_after};
ghost use Rattle.hunt_mean.specs.Find as spec;

use audit_mean::Law;
use msg_core::Memory;
use report_lines::Line;
use script_text::cut;
use std::alloc::Global;

/// A report, and the two lines of it that break a law.
#[derive(Clone, Copy)]
pub struct Breach<'a> {
    pub report: &'a [u8],
    pub first: u32,
    pub second: u32,
}

/// A script after comments that tell which law its report breaks, and by which two lines.
pub fn tell(alloc: Global, law: Law, breach: Breach<'_>, script: &[u8]) -> Result<Line, Memory>
    ensures { IfOk result (λ text. text ≡
        spec.told_breach law breach.entry.report.now breach.entry.first breach.entry.second ++ script.now) }
{
    let mut text = Line::new(alloc);
    text.text(b"# breaks ")?;
    text.text(law_word(law))?;
    text.text(b"\n")?;
    tell_line(breach.report, breach.first, &mut text)?;
    tell_line(breach.report, breach.second, &mut text)?;
    text.text(script)?;
    Ok(text)
}

/// Appends the comment that tells the line of a report with this number.
fn tell_line(report: &[u8], number: u32, text: &mut Line) -> Result<(), Memory>
    ensures { OnOk result (text.new ≡ text.old ++ spec.told_line report.now number) }
{
    text.text(b"# line ")?;
    text.number(u64::from(number))?;
    text.text(b": ")?;
    text.text(line_at(report, number))?;
    text.text(b"\n")
}

/// The line of a text with this number, the first being 1, without its line feed; and no bytes where there is none.
#[tactic(auto, using(crate::proofs::Lines::first_after))]
fn line_at(text: &[u8], number: u32) -> &[u8]
    ensures { result.now ≡ spec.numbered_line text.now number }
{
    first_line(after_lines(text, number.saturating_sub(1)))
}

/// What stands after this many line feeds, if there are as many.
#[tactic(auto, using(crate::proofs::Lines::one_more))]
fn after_lines(text: &[u8], count: u32) -> Option<&[u8]>
    ensures { parts_after 10 result ≡ drop count (slice_split (λ byte. byte == 10) text.now) }
{
    let mut rest = Some(text);
    for _ in 0..count {
        rest = after_line(rest);
    }
    rest
}

/// What stands after the first line feed.
fn after_line(rest: Option<&[u8]>) -> Option<&[u8]>
    ensures { parts_after 10 result ≡ drop 1 (parts_after 10 rest.entry) }
{
    match rest {
        Some(rest) => cut(b'\n', rest).1,
        None => None,
    }
}

/// What stands before the first line feed, and no bytes where nothing is left.
fn first_line(rest: Option<&[u8]>) -> &[u8]
    ensures { result.now ≡ slice_index_or (parts_after 10 rest.entry) 0 [] }
{
    match rest {
        Some(rest) => cut(b'\n', rest).0,
        None => &[],
    }
}

/// A law, as words name it.
pub fn law_word(law: Law) -> &'static [u8]
    ensures { result.now ≡ spec.law_word law }
{
    match law {
        Law::Sender => b"sender",
        Law::Total => b"total",
        Law::Same => b"same",
    }
}
