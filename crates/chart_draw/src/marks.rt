//! The marks of lines, and the arrows that lead to them.
ghost use Rattle.std.specs.Prelude.{◌≡◌, ◌++◌, [], Bool, List, OnOk, codes, if◌then◌else◌, map, option_map};
ghost use Rattle.std.specs.HashMap as hash;
ghost use Rattle.std.specs.List.{concat};
ghost use Rattle.chart_mean.specs.Mark as spec;
ghost use Rattle.chart_mean.specs.Place as place;
ghost use Rattle.chart_draw.specs.Bearers.{Agrees, Bears, NextBearers, same_word};
ghost use Rattle.chart_draw.specs.Reading.{line_shown, manner_shown, says_shown};

use crate::labels::put_label;
use crate::lines::DrawnLine;
use crate::place::down;
use crate::says::Says;
use crate::text::{Ends, Text};
use chart_mean::{Breach, SentPacket};
use std::alloc::{AllocError, Global};
use std::collections::HashMap;

/// How marks are drawn: whether the lines tell of receptions, to which arrows lead then; the breach that is shown; and
/// the layer whose headers are left out.
#[derive(Clone, Copy)]
pub(crate) struct Manner<'a> {
    pub told: bool,
    pub breach: Option<Breach>,
    pub hide: &'a [u8],
}

/// A word by which a packet is found.
#[derive(Clone, Copy, PartialEq, Eq, Hash)]
struct Key<'a> {
    word: &'a [u8],
}

/// Appends the marks of lines.
pub(crate) fn draw_marks(
    alloc: Global,
    manner: Manner<'_>,
    lines: &[DrawnLine<'_>],
    text: &mut Text,
) -> Result<(), AllocError>
    ensures { OnOk result
        (text.new ≡ text.old ++ concat (spec.marks (manner_shown manner.entry) [] (map line_shown lines.now))) }
{
    let mut bearers = HashMap::new(alloc);
    for line in lines {
        let sent = bringer(manner.told, &bearers, &line.says);
        draw_mark(alloc, manner, sent, line, text)?;
        note(manner.told, &mut bearers, line)?;
    }
    Ok(())
}

/// The packet from which an arrow leads to a line: the one that is given, where receptions are told, and else the one
/// that brings what is delivered.
fn bringer(
    told: bool,
    bearers: &HashMap<Key<'_>, SentPacket>,
    says: &Says<'_>,
) -> Option<SentPacket>
    ensures { (before : List place.Line) → Agrees told (hash.get same_word bearers.now) before
        → result ≡ spec.bringer told (spec.bearer told before) (says_shown says.now) }
{
    if told {
        given_by(bearers, says)
    } else {
        carried_by(bearers, says)
    }
}

/// The packet that is given.
fn given_by(bearers: &HashMap<Key<'_>, SentPacket>, says: &Says<'_>) -> Option<SentPacket>
    ensures { (told : Bool) (before : List place.Line) → Agrees told (hash.get same_word bearers.now) before
        → result ≡ spec.given_by (spec.bearer told before) (says_shown says.now) }
{
    match *says {
        Says::Give(number, _) => bearers.get(&Key { word: number }).copied(),
        _ => None,
    }
}

/// The packet that brings what a line delivers, if another member sent it.
fn carried_by(bearers: &HashMap<Key<'_>, SentPacket>, says: &Says<'_>) -> Option<SentPacket>
    ensures { (told : Bool) (before : List place.Line) → Agrees told (hash.get same_word bearers.now) before
        → result ≡ spec.carried_by (spec.bearer told before) (says_shown says.now) }
{
    match *says {
        Says::Deliver(_, member, body) => from_another(member, bearers.get(&Key { word: body })),
        _ => None,
    }
}

/// Appends the mark of a line.
fn draw_mark(
    alloc: Global,
    manner: Manner<'_>,
    sent: Option<SentPacket>,
    line: &DrawnLine<'_>,
    text: &mut Text,
) -> Result<(), AllocError>
    ensures { OnOk result (text.new ≡ text.old ++ spec.mark (manner_shown manner.entry) sent (line_shown line.now)) }
{
    draw_title(manner.breach, line, text)?;
    draw_arrow(sent, line.x, line.says.y(), text)?;
    draw_sign(line, text)?;
    draw_words(alloc, manner.hide, line, text)?;
    draw_tenth(line, text)?;
    text.put(b"</g>\n")
}

/// Appends the beginning of a mark, with the line's text for its title.
fn draw_title(
    breach: Option<Breach>,
    line: &DrawnLine<'_>,
    text: &mut Text,
) -> Result<(), AllocError>
    ensures { OnOk result (text.new ≡ text.old ++ spec.title breach (line_shown line.now)) }
{
    text.put_number(b"<g id='L", line.number)?;
    text.put(b"'")?;
    text.put(class_of(breach, line.number))?;
    text.put(b"><title>")?;
    text.escaped(line.text)?;
    text.put(b"</title>")
}

/// What tells the lines of a breach from others.
fn class_of(breach: Option<Breach>, number: u64) -> &'static [u8]
    ensures { result.now ≡ spec.class_of breach number }
{
    match breach {
        Some(breach) => class_in(breach, number),
        None => b"",
    }
}

fn class_in(breach: Breach, number: u64) -> &'static [u8]
    ensures { result.now ≡ (if spec.is_in breach number then codes " class='breach'" else []) }
{
    if number == u64::from(breach.first) || number == u64::from(breach.second) {
        b" class='breach'"
    } else {
        b""
    }
}

/// Appends an arrow from a packet, if there is one, to a place.
fn draw_arrow(sent: Option<SentPacket>, x: u64, y: u64, text: &mut Text) -> Result<(), AllocError>
    ensures { OnOk result (text.new ≡ text.old ++ spec.arrow sent x y) }
{
    let Some(sent) = sent else {
        return Ok(());
    };
    let ends = Ends {
        x1: sent.x,
        y1: down(u32::from(sent.member)),
        x2: x,
        y2: y,
    };
    text.put_line(b"<line class='arrow'", ends, b"/>")
}

/// Appends a line's sign.
fn draw_sign(line: &DrawnLine<'_>, text: &mut Text) -> Result<(), AllocError>
    ensures { OnOk result (text.new ≡ text.old ++ spec.sign (line_shown line.now)) }
{
    text.put(b"<use href='#")?;
    text.put(line.says.sign())?;
    text.put(b"'")?;
    text.attribute(b"x", line.x)?;
    text.attribute(b"y", line.says.y())?;
    text.put(b"/>")
}

/// Appends the words of a line, beside its sign.
fn draw_words(
    alloc: Global,
    hide: &[u8],
    line: &DrawnLine<'_>,
    text: &mut Text,
) -> Result<(), AllocError>
    ensures { OnOk result (text.new ≡ text.old ++ spec.words hide.now (line_shown line.now)) }
{
    let mut label = Text::new(alloc);
    put_label(alloc, hide, &line.says, &mut label)?;
    draw_words_at(line.x, line.says.words_y(), label.bytes(), text)
}

/// Appends words at a place, escaped, if there are any.
fn draw_words_at(x: u64, y: u64, words: &[u8], text: &mut Text) -> Result<(), AllocError>
    ensures { OnOk result (text.new ≡ text.old ++ spec.words_at x y words.now) }
{
    if words.is_empty() {
        return Ok(());
    }
    text.put_at(b"<text", x, y)?;
    text.put(b" dx='6'>")?;
    text.escaped(words)?;
    text.put(b"</text>")
}

/// Appends the number of each tenth line.
fn draw_tenth(line: &DrawnLine<'_>, text: &mut Text) -> Result<(), AllocError>
    ensures { OnOk result (text.new ≡ text.old ++ spec.tenth (line_shown line.now)) }
{
    if line.number % 10 != 0 {
        return Ok(());
    }
    text.put(b"<text class='number'")?;
    text.attribute(b"x", line.x)?;
    text.put(b" y='42'>")?;
    text.number(line.number)?;
    text.put(b"</text>")
}

/// The packet, if another member than this one sent it.
fn from_another(member: u8, sent: Option<&SentPacket>) -> Option<SentPacket>
    ensures { result ≡ spec.from_another member (option_map (λ s. s.now) sent.entry) }
{
    match sent {
        Some(sent) if sent.member != member => Some(*sent),
        _ => None,
    }
}

/// Notes a line as the bearer of its word, if it is a packet that is found by one.
fn note<'a>(
    told: bool,
    bearers: &mut HashMap<Key<'a>, SentPacket>,
    line: &DrawnLine<'a>,
) -> Result<(), AllocError>
    ensures { OnOk result
        (NextBearers told (hash.get same_word bearers.old) (hash.get same_word bearers.new) (line_shown line.now)) }
{
    match line.says.key(told) {
        Some(word) => note_packet(
            bearers,
            SentPacket {
                x: line.x,
                member: line.says.sender(),
            },
            word,
        ),
        None => Ok(()),
    }
}

/// Notes a packet as the bearer of a word.
fn note_packet<'a>(
    bearers: &mut HashMap<Key<'a>, SentPacket>,
    sent: SentPacket,
    word: &'a [u8],
) -> Result<(), AllocError>
    ensures { OnOk result (Bears (hash.get same_word bearers.old) (hash.get same_word bearers.new) sent word.now) }
{
    bearers.insert(Key { word }, sent)?;
    Ok(())
}
