//! The stubs of packets that never reached a member to which they went.
ghost use Rattle.std.specs.Prelude.{◌≡◌, ◌==◌, ◌≤◌, ◌++◌, [], IfOk, None, OnOk, codes, if◌then◌else◌, map, min, nat_lt};
ghost use Rattle.std.specs.HashMap as hash;
ghost use Rattle.script_mean.specs.Words.{number_within};
ghost use Rattle.msg_core.specs.View.{last_member, most_members};
ghost use Rattle.chart_mean.specs.Stub as spec;
ghost use Rattle.chart_draw.specs.Reading.{line_shown, says_shown};
ghost use Rattle.chart_draw.specs.Scenes.{IsScene, NextReceived, Puts, Receives, post_shown, same_reception};
ghost use Rattle.chart_draw.specs.Scenes.{scene_lines};

use crate::lines::{DrawnLine, are_told};
use crate::place::down;
use crate::says::Says;
use crate::text::Text;
use msg_core::{LAST_MEMBER, MOST_MEMBERS, View};
use script_text::number_within;
use std::alloc::{AllocError, Global};
use std::collections::HashMap;
use view_masks::rank;

/// A packet and a member to which it is given.
#[derive(Clone, Copy, PartialEq, Eq, Hash)]
struct Reception<'a> {
    number: &'a [u8],
    member: u8,
}

/// A packet that was sent: its number, its sender, to whom it goes (`all` or a rank), where it stands, and the view of
/// its sender, if a line told it.
#[derive(Clone, Copy)]
struct Post<'a> {
    number: &'a [u8],
    sender: u8,
    to: &'a [u8],
    x: u64,
    known: Option<View>,
}

/// The lines of a picture, its number of rows, and the receptions of which the lines tell.
#[derive(Drop)]
struct Scene<'t, 'a> {
    rows: u32,
    lines: &'t [DrawnLine<'a>],
    receptions: HashMap<Reception<'a>, ()>,
}

/// Appends the stubs of all packets, where lines tell of receptions.
pub(crate) fn draw_stubs(
    alloc: Global,
    rows: u32,
    lines: &[DrawnLine<'_>],
    text: &mut Text,
) -> Result<(), AllocError>
    ensures { OnOk result (text.new ≡ text.old ++ spec.stubs rows (map line_shown lines.now)) }
{
    if are_told(lines) {
        draw_told(alloc, rows, lines, text)
    } else {
        Ok(())
    }
}

/// Appends the stubs of all packets.
fn draw_told(
    alloc: Global,
    rows: u32,
    lines: &[DrawnLine<'_>],
    text: &mut Text,
) -> Result<(), AllocError>
    ensures { OnOk result (text.new ≡ text.old ++ spec.senders_below (map line_shown lines.now) rows rows) }
{
    let receptions = receptions(alloc, lines)?;
    let scene = Scene {
        rows,
        lines,
        receptions,
    };
    draw_senders(&scene, text)
}

/// The receptions of which lines tell.
fn receptions<'a>(
    alloc: Global,
    lines: &[DrawnLine<'a>],
) -> Result<HashMap<Reception<'a>, ()>, AllocError>
    ensures { IfOk result (λ kept. Receives (hash.get same_reception kept) (map line_shown lines.now)) }
{
    let mut receptions = HashMap::new(alloc);
    for line in lines {
        note_reception(&mut receptions, &line.says)?;
    }
    Ok(receptions)
}

/// Notes a line, if it tells of a reception.
fn note_reception<'a>(
    receptions: &mut HashMap<Reception<'a>, ()>,
    says: &Says<'a>,
) -> Result<(), AllocError>
    ensures { OnOk result
        (NextReceived (hash.get same_reception receptions.old) (hash.get same_reception receptions.new)
        (says_shown says.now)) }
{
    match *says {
        Says::Give(number, member) => put_reception(receptions, Reception { number, member }),
        _ => Ok(()),
    }
}

fn put_reception<'a>(
    receptions: &mut HashMap<Reception<'a>, ()>,
    reception: Reception<'a>,
) -> Result<(), AllocError>
    ensures { OnOk result
        (Puts (hash.get same_reception receptions.old) (hash.get same_reception receptions.new) reception.entry) }
{
    receptions.insert(reception, ())?;
    Ok(())
}

/// Appends the stubs of the packets of all senders.
fn draw_senders(scene: &Scene<'_, '_>, text: &mut Text) -> Result<(), AllocError>
    requires { IsScene scene.now }
    ensures { OnOk result
        (text.new ≡ text.old ++ spec.senders_below (scene_lines scene.now) scene.now.rows scene.now.rows) }
{
    for sender in 0..scene.rows {
        draw_sender(sender, scene, text)?;
    }
    Ok(())
}

/// Appends the stubs of a sender's packets.
#[tactic(auto, using(crate::proofs::Stubbed::walked))]
fn draw_sender(sender: u32, scene: &Scene<'_, '_>, text: &mut Text) -> Result<(), AllocError>
    requires { IsScene scene.now }
    ensures { OnOk result (text.new ≡ text.old
        ++ spec.stubs_from (scene_lines scene.now) scene.now.rows sender None (scene_lines scene.now)) }
{
    let mut known = None;
    for line in scene.lines {
        draw_stubs_at(sender, known, line, scene, text)?;
        known = view_after(sender, known, &line.says);
    }
    Ok(())
}

/// The view of a member after a line, if one was told.
fn view_after(member: u32, known: Option<View>, says: &Says<'_>) -> Option<View>
    ensures { result ≡ spec.view_after member known (says_shown says.now) }
{
    match *says {
        Says::View(told, ltime, mask) => {
            if u32::from(told) == member {
                Some(View { ltime, mask })
            } else {
                known
            }
        }
        _ => known,
    }
}

/// Appends the stubs at a line, if it is a packet of this sender, which knows this view.
fn draw_stubs_at(
    sender: u32,
    known: Option<View>,
    line: &DrawnLine<'_>,
    scene: &Scene<'_, '_>,
    text: &mut Text,
) -> Result<(), AllocError>
    requires { IsScene scene.now }
    ensures { OnOk result (text.new ≡ text.old
        ++ spec.stubs_at (scene_lines scene.now) scene.now.rows sender known line.now.x (says_shown line.now.says)) }
{
    match line.says {
        Says::Packet(number, member, to, _, _) => {
            let post = Post {
                number,
                sender: member,
                to,
                x: line.x,
                known,
            };
            draw_post_of(sender, post, scene, text)
        }
        _ => Ok(()),
    }
}

/// Appends the stubs of a packet, if it is this sender's.
fn draw_post_of(
    sender: u32,
    post: Post<'_>,
    scene: &Scene<'_, '_>,
    text: &mut Text,
) -> Result<(), AllocError>
    requires { IsScene scene.now }
    ensures { OnOk result (text.new ≡ text.old
        ++ (if post.entry.sender == sender
        then spec.stubs_below (scene_lines scene.now) (post_shown post.entry) (min scene.now.rows most_members) else
        [])) }
{
    if u32::from(post.sender) == sender {
        draw_post(post, scene, text)
    } else {
        Ok(())
    }
}

/// Appends the stubs of a packet.
fn draw_post(post: Post<'_>, scene: &Scene<'_, '_>, text: &mut Text) -> Result<(), AllocError>
    requires { IsScene scene.now }
    ensures { OnOk result (text.new ≡ text.old
        ++ spec.stubs_below (scene_lines scene.now) (post_shown post.entry) (min scene.now.rows most_members)) }
{
    for member in 0..scene.rows.min(u32::from(MOST_MEMBERS)) {
        draw_stub_if(post, member as u8, scene, text)?;
    }
    Ok(())
}

/// Appends the stub of a packet towards a member, if the packet never reached it.
fn draw_stub_if(
    post: Post<'_>,
    member: u8,
    scene: &Scene<'_, '_>,
    text: &mut Text,
) -> Result<(), AllocError>
    requires { IsScene scene.now }
    ensures { OnOk result
        (text.new ≡ text.old ++ spec.stub_if (scene_lines scene.now) (post_shown post.entry) member) }
{
    if never_reached(post, member, scene) {
        draw_stub(post, member, text)
    } else {
        Ok(())
    }
}

/// Whether a packet goes to a member other than its sender, to which no line tells that it was given.
fn never_reached(post: Post<'_>, member: u8, scene: &Scene<'_, '_>) -> bool
    requires { IsScene scene.now }
    ensures { result ≡ spec.never_reached (scene_lines scene.now) (post_shown post.entry) member }
{
    member != post.sender
        && goes_to(post.to, rank_in(post.known, member))
        && !was_given(post.number, member, scene)
}

/// Whether a line tells that a packet is given to a member.
fn was_given(number: &[u8], member: u8, scene: &Scene<'_, '_>) -> bool
    requires { IsScene scene.now }
    ensures { result ≡ spec.was_given (scene_lines scene.now) number.now member }
{
    scene.receptions.contains_key(&Reception { number, member })
}

/// The rank of a member in a view; where none was told, its own number.
fn rank_in(known: Option<View>, member: u8) -> Option<u8>
    ensures { result ≡ spec.rank_in known member }
{
    match known {
        Some(view) => rank(view, member),
        None => Some(member),
    }
}

/// Whether what goes to these (`all` or a rank) goes to the member of this rank, if it has one.
fn goes_to(to: &[u8], rank: Option<u8>) -> bool
    ensures { result ≡ spec.goes_to to.now rank }
{
    match rank {
        Some(rank) => to == b"all".as_slice() || is_rank(to, rank),
        None => false,
    }
}

/// Whether a word is this rank.
fn is_rank(word: &[u8], rank: u8) -> bool
    ensures { result ≡ spec.is_rank rank (number_within 0 last_member word.now) }
{
    match number_within(0, u32::from(LAST_MEMBER), word) {
        Some(wanted) => wanted == u32::from(rank),
        None => false,
    }
}

/// Appends the stub of a packet towards a member that it never reached.
fn draw_stub(post: Post<'_>, member: u8, text: &mut Text) -> Result<(), AllocError>
    ensures { OnOk result (text.new ≡ text.old ++ spec.stub (post_shown post.entry) member) }
{
    text.put(b"<g class='stub'><title>packet ")?;
    text.escaped(post.number)?;
    text.put_number(b" never reached ", u64::from(member))?;
    text.put_number(b"</title><path d='M", post.x)?;
    text.put_number(b" ", down(u32::from(post.sender)))?;
    text.put(b"l")?;
    draw_end(post.sender, member, text)?;
    text.put(b"'/></g>\n")
}

/// Appends where a stub ends, as seen from its packet: farther to the right for a farther member, and towards its row.
fn draw_end(sender: u8, member: u8, text: &mut Text) -> Result<(), AllocError>
    ensures { OnOk result (text.new ≡ text.old ++ spec.stub_end sender member) }
{
    text.number(10 + 8 * distance(sender, member))?;
    text.put(towards(sender, member))
}

/// How far towards a member's row a stub goes.
fn towards(sender: u8, member: u8) -> &'static [u8]
    ensures { result.now ≡ (if nat_lt member sender then codes "-26" else codes " 26") }
{
    if member < sender { b"-26" } else { b" 26" }
}

/// How many rows lie between two members.
fn distance(one: u8, two: u8) -> u64
    ensures is { result ≡ spec.distance one two }
    ensures few { result ≤ 255 }
{
    u64::from(one.saturating_sub(two)) + u64::from(two.saturating_sub(one))
}
