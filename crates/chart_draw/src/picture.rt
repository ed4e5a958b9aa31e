//! The whole picture, and of which texts there is one.
ghost use Rattle.std.specs.Prelude.{◌≡◌, ◌++◌, ◌≤◌, IfOk, Ok, OnOk, length, map};
ghost use Rattle.audit_mean.specs.Text.{lines_of};
ghost use Rattle.chart_mean.specs.Picture as spec;
ghost use Rattle.chart_mean.specs.Excerpt as excerpts;
ghost use Rattle.chart_draw.specs.Reading.{excerpt_shown, line_shown, manner_shown};
ghost use Rattle.chart_draw.specs.Charts.{Charts, IsReport};

use crate::lines::{DrawnLine, Layout, all_lines, are_told, count_rows, in_range, placed};
use crate::marks::{Manner, draw_marks};
use crate::place::{AXIS, LEFT, down};
use crate::rows::draw_rows;
use crate::stubs::draw_stubs;
use crate::style::style;
use crate::text::{Ends, Text};
use crate::words::Excerpt;
use audit_judge::{AuditError, Law, audit};
use chart_mean::ChartEnding;
use std::alloc::{AllocError, Global};

/// A picture is as wide as its legend at least.
const LEGEND_WIDTH: u64 = 830;

/// The picture of an excerpt of a text, or how the program that is to draw it ends. The texts of which there is one are
/// those that an audit takes, by whichever law.
pub(crate) fn chart(
    alloc: Global,
    text: &[u8],
    excerpt: Excerpt<'_>,
) -> Result<Vec<u8>, ChartEnding>
    ensures { Charts (spec.chart_of (excerpt_shown excerpt.entry) text.now) result }
{
    match report(alloc, text) {
        Ok(()) => drawn(alloc, text, excerpt),
        Err(ending) => Err(ending),
    }
}

/// Whether a text is a report; if it isn't, how the program ends.
fn report(alloc: Global, text: &[u8]) -> Result<(), ChartEnding>
    ensures { (excerpt : excerpts.Excerpt) → IsReport excerpt text.now result }
{
    match audit(alloc, text, Law::Sender) {
        Ok(_) => Ok(()),
        Err(AuditError::TooLarge) => Err(ChartEnding::TooLarge),
        Err(AuditError::Line(number)) => Err(ChartEnding::Line(number)),
        Err(AuditError::Memory) => Err(ChartEnding::Memory),
    }
}

/// The picture of a range of a report, unless memory runs out.
fn drawn(alloc: Global, text: &[u8], excerpt: Excerpt<'_>) -> Result<Vec<u8>, ChartEnding>
    requires { IsReport (excerpt_shown excerpt) text.now (Ok tt) }
    ensures { Charts (spec.chart_of (excerpt_shown excerpt.entry) text.now) result }
{
    Ok(draw(alloc, text, excerpt)?)
}

fn draw(alloc: Global, text: &[u8], excerpt: Excerpt<'_>) -> Result<Vec<u8>, AllocError>
    requires { length text.now ≤ 67108864 }
    ensures { IfOk result
        (λ picture. picture.items ≡ spec.range_picture (excerpt_shown excerpt.entry) (lines_of text.now)) }
{
    let texts = all_lines(alloc, text)?;
    let layout = placed(
        alloc,
        excerpt.hide,
        excerpt.first,
        in_range(excerpt, &texts),
    )?;
    let mut picture = Text::new(alloc);
    draw_picture(alloc, excerpt, &layout, &mut picture)?;
    Ok(picture.into_bytes())
}

/// Appends the picture of these lines, as an excerpt asks for it.
fn draw_picture(
    alloc: Global,
    excerpt: Excerpt<'_>,
    layout: &Layout<'_>,
    text: &mut Text,
) -> Result<(), AllocError>
    requires { layout.now.end ≤ 25367151022 }
    ensures { OnOk result
        (text.new ≡ text.old
        ++ spec.picture (excerpt_shown excerpt.entry) layout.now.end (map line_shown layout.now.lines.items)) }
{
    let lines = layout.lines.as_slice();
    let rows = count_rows(lines);
    draw_opening(LEGEND_WIDTH.max(layout.end + 100), down(rows), text)?;
    text.put(style())?;
    draw_axis(layout.end, text)?;
    draw_rows(rows, layout.end, lines, text)?;
    draw_stubs(alloc, rows, lines, text)?;
    draw_marks(alloc, manner_of(excerpt, lines), lines, text)?;
    text.put(b"</svg>\n")
}

/// How marks are drawn: by whether the lines tell of receptions, and by what is asked.
fn manner_of<'e>(excerpt: Excerpt<'e>, lines: &[DrawnLine<'_>]) -> Manner<'e>
    ensures { manner_shown result ≡ spec.manner_of (excerpt_shown excerpt.entry) (map line_shown lines.now) }
{
    Manner {
        told: are_told(lines),
        breach: excerpt.breach,
        hide: excerpt.hide,
    }
}

/// Appends the first line of a picture of this width and height in pixels.
fn draw_opening(width: u64, height: u64, text: &mut Text) -> Result<(), AllocError>
    ensures { OnOk result (text.new ≡ text.old ++ spec.opening width height) }
{
    text.put(b"<svg xmlns='http://www.w3.org/2000/svg'")?;
    text.attribute(b"width", width)?;
    text.attribute(b"height", height)?;
    text.put_number(b" viewBox='0 0 ", width)?;
    text.put_number(b" ", height)?;
    text.put(b"'>\n")
}

/// Appends the axis, up to the right end.
fn draw_axis(end: u64, text: &mut Text) -> Result<(), AllocError>
    ensures { OnOk result (text.new ≡ text.old ++ spec.axis_line end) }
{
    let ends = Ends {
        x1: LEFT,
        y1: AXIS,
        x2: end,
        y2: AXIS,
    };
    text.put_line(b"<line class='axis'", ends, b"/>\n")
}
