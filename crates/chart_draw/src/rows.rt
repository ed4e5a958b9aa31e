//! The rows of members.
ghost use Rattle.std.specs.Prelude.{◌≡◌, ◌==◌, ◌++◌, [], IfOk, None, OnOk, Some, codes, if◌then◌else◌, map};
ghost use Rattle.chart_mean.specs.Row as spec;
ghost use Rattle.chart_draw.specs.Reading.{line_shown, says_shown};
ghost use Rattle.chart_draw.specs.Turns.{TurnsTo};

use crate::lines::DrawnLine;
use crate::place::{LEFT, down};
use crate::says::Says;
use crate::text::{Ends, Text};
use chart_mean::{Stay, Turn};
use msg_core::{MOST_MEMBERS, View};
use std::alloc::AllocError;
use view_masks::rank;

/// How many tints the bands of views have.
const TINTS: u32 = 6;

/// Appends the rows of the members below a number.
pub(crate) fn draw_rows(
    rows: u32,
    end: u64,
    lines: &[DrawnLine<'_>],
    text: &mut Text,
) -> Result<(), AllocError>
    ensures { OnOk result (text.new ≡ text.old ++ spec.rows_below rows end (map line_shown lines.now)) }
{
    for member in 0..rows {
        draw_row(member, end, lines, text)?;
    }
    Ok(())
}

/// Appends a member's row.
fn draw_row(
    member: u32,
    end: u64,
    lines: &[DrawnLine<'_>],
    text: &mut Text,
) -> Result<(), AllocError>
    ensures { OnOk result (text.new ≡ text.old ++ spec.row end (map line_shown lines.now) member) }
{
    draw_heading(member, text)?;
    draw_stays(member, end, lines, text)
}

/// Appends a member's number before its row.
fn draw_heading(member: u32, text: &mut Text) -> Result<(), AllocError>
    ensures { OnOk result (text.new ≡ text.old ++ spec.heading member) }
{
    text.put_at(b"<text class='member'", LEFT - 12, down(member) + 5)?;
    text.put_number(b">", u64::from(member))?;
    text.put(b"</text>\n")
}

/// Appends a member's stays.
#[tactic(auto, using(crate::proofs::Stays::stays_last))]
fn draw_stays(
    member: u32,
    end: u64,
    lines: &[DrawnLine<'_>],
    text: &mut Text,
) -> Result<(), AllocError>
    ensures { OnOk result
        (text.new ≡ text.old
        ++ spec.stays member end spec.first_turn (spec.turns_at member (map line_shown lines.now))) }
{
    let mut turn = Turn {
        x: LEFT,
        stay: Stay::Untold,
    };
    for line in lines {
        turn = draw_turn(member, turn, line, text)?;
    }
    draw_stay(member, turn, end, text)
}

/// Appends the stay that a line ends, if it ends one, and answers the turn after the line.
#[tactic(auto, using(crate::proofs::Stays::stands, crate::proofs::Stays::turns))]
fn draw_turn(
    member: u32,
    turn: Turn,
    line: &DrawnLine<'_>,
    text: &mut Text,
) -> Result<Turn, AllocError>
    ensures { IfOk result (λ next. TurnsTo member turn (line_shown line.now) text.old text.new next) }
{
    match stay_of(member, &line.says) {
        Some(stay) => {
            draw_stay(member, turn, line.x, text)?;
            Ok(Turn { x: line.x, stay })
        }
        None => Ok(turn),
    }
}

/// Where a line says that a member is from then on.
fn stay_of(member: u32, says: &Says<'_>) -> Option<Stay>
    ensures { result ≡ spec.stay_of member (says_shown says.now) }
{
    match *says {
        Says::View(told, ltime, mask) => stay_at(member, told, Stay::View(ltime, mask)),
        Says::Out(told) => stay_at(member, told, Stay::Out),
        _ => None,
    }
}

/// A stay that is told of a member, if it is this one.
fn stay_at(member: u32, told: u8, stay: Stay) -> Option<Stay>
    ensures { result ≡ (if told == member then Some stay else None) }
{
    if u32::from(told) == member {
        Some(stay)
    } else {
        None
    }
}

/// Appends a stay up to where it ends.
fn draw_stay(member: u32, turn: Turn, end: u64, text: &mut Text) -> Result<(), AllocError>
    ensures { OnOk result (text.new ≡ text.old ++ spec.stay_band member turn.x end turn.stay) }
{
    match turn.stay {
        Stay::Untold => draw_untold(member, turn.x, end, text),
        Stay::View(ltime, mask) => {
            draw_view(member, turn.x, end, ltime, text)?;
            draw_label(member, turn.x, ltime, mask, text)?;
            text.put(b"</g>\n")
        }
        Stay::Out => Ok(()),
    }
}

fn draw_untold(member: u32, x: u64, end: u64, text: &mut Text) -> Result<(), AllocError>
    ensures { OnOk result (text.new ≡ text.old ++ spec.untold_band member x end) }
{
    text.put(b"<g class='untold'>")?;
    draw_band(member, x, end, text)?;
    text.put(b"</g>\n")
}

/// Appends the beginning of a stay in a view, whose tint the logical time gives.
fn draw_view(member: u32, x: u64, end: u64, ltime: u32, text: &mut Text) -> Result<(), AllocError>
    ensures { OnOk result (text.new ≡ text.old ++ spec.tinted_band member x end ltime) }
{
    text.put_number(b"<g class='view", u64::from(ltime % TINTS))?;
    text.put(b"'>")?;
    draw_band(member, x, end, text)
}

/// Appends a band along a member's row, with a line in its midst.
fn draw_band(member: u32, x: u64, end: u64, text: &mut Text) -> Result<(), AllocError>
    ensures { OnOk result (text.new ≡ text.old ++ spec.band member x end) }
{
    text.put_at(b"<rect", x, down(member) - 12)?;
    text.attribute(b"width", end.saturating_sub(x))?;
    text.put(b" height='24'/>")?;
    draw_midst(member, x, end, text)
}

fn draw_midst(member: u32, x: u64, end: u64, text: &mut Text) -> Result<(), AllocError>
    ensures { OnOk result (text.new ≡ text.old ++ spec.midst member x end) }
{
    let y = down(member);
    let ends = Ends {
        x1: x,
        y1: y,
        x2: end,
        y2: y,
    };
    text.put_line(b"<line", ends, b"/>")
}

/// Appends a band's label: the view's logical time and its members.
fn draw_label(member: u32, x: u64, ltime: u32, mask: u32, text: &mut Text) -> Result<(), AllocError>
    ensures { OnOk result (text.new ≡ text.old ++ spec.label member x ltime mask) }
{
    text.put_at(b"<text", x, down(member) - 16)?;
    text.put_number(b" dx='4'>view ", u64::from(ltime))?;
    text.put(b" {")?;
    put_members(View { ltime, mask }, MOST_MEMBERS, text)?;
    text.put(b"}</text>")
}

/// Appends the members of a view that are below a number.
fn put_members(view: View, most: u8, text: &mut Text) -> Result<(), AllocError>
    ensures { OnOk result (text.new ≡ text.old ++ spec.members_below view most) }
{
    for id in 0..most {
        put_member(view, id, text)?;
    }
    Ok(())
}

/// Appends a member, if a view has it, with a comma before it unless it is the view's first.
#[tactic(auto, unfolding(chart_mean::specs::Row::ranked_in))]
fn put_member(view: View, id: u8, text: &mut Text) -> Result<(), AllocError>
    ensures { OnOk result (text.new ≡ text.old ++ spec.ranked_in view id) }
{
    put_ranked(rank(view, id), id, text)
}

/// Appends a member of a view, by its rank there, with a comma before it unless it is the first.
fn put_ranked(rank: Option<u8>, id: u8, text: &mut Text) -> Result<(), AllocError>
    ensures { OnOk result (text.new ≡ text.old ++ spec.ranked rank id) }
{
    match rank {
        Some(rank) => {
            text.put(comma(rank))?;
            text.number(u64::from(id))
        }
        None => Ok(()),
    }
}

/// What stands before the member of a rank.
fn comma(rank: u8) -> &'static [u8]
    ensures { result.now ≡ (if rank == 0 then [] else codes ",") }
{
    if rank == 0 { b"" } else { b"," }
}
