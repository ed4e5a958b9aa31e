//! How the members and the network of a run behave.

use crate::random::Random;
use hunt_mean::Style;

/// How many packets for each member may be on their way before members hold back their casts; in a flood they don't.
const CROWD: usize = 6;

/// The most packets that are on their way, and in a flood.
const MOST_DUES: usize = 128;

const MOST_FLOODED: usize = 1000;

/// How often each thing happens, in a hundred times; and by how many milliseconds at most the clock goes on from tick
/// to tick.
#[derive(Clone, Copy)]
pub(crate) struct Habits {
    /// That a member casts, sends, ticks, or leaves; else a packet is given.
    pub casts: u32,
    pub sends: u32,
    pub ticks: u32,
    pub leaves: u32,
    /// That a body has more than one byte.
    pub long: u32,
    /// That a packet is lost; that it is given and will be given again; and that another comes before it.
    pub loses: u32,
    pub repeats: u32,
    pub overtakes: u32,
    /// That the network parts, or a member falls silent; or that this ends.
    pub parts: u32,
    pub stride: u32,
    /// That a member begins to cast many times in a row; and that one crashes, of which at most so many do.
    pub bursts: u32,
    pub crashes: u32,
    pub most_crashed: u8,
    /// Whether the network parts into three.
    pub in_three: bool,
    /// How many packets for each member may be on their way before members hold back their casts; and how many
    /// packets may be on their way.
    pub crowd: usize,
    pub most_dues: usize,
    /// In how many of the four parts of a run it is unquiet.
    pub unquiet: u32,
}

impl Habits {
    /// The habits of a run of a style. Each is often left out, so that a law that one of them breaks isn't hidden by
    /// others.
    pub(crate) fn draw(random: &mut Random, style: Style, members: u8) -> Habits {
        let mixed = Habits::mixed(random);
        match style {
            Style::Mixed => mixed,
            Style::Flood => mixed.flooded(random, members),
            Style::Crash => mixed.crashing(random, members),
            Style::Part => mixed.parting(random),
        }
    }

    /// Some of all.
    fn mixed(random: &mut Random) -> Habits {
        Habits {
            casts: 8 + random.below(30),
            sends: some(random, 40, 12),
            ticks: some(random, 70, 12),
            leaves: some(random, 25, 3),
            long: some(random, 40, 60),
            loses: some(random, 60, 30),
            repeats: some(random, 60, 30),
            overtakes: some(random, 70, 60),
            parts: some(random, 30, 4),
            stride: stride(random),
            bursts: 0,
            crashes: 0,
            most_crashed: 0,
            in_three: false,
            crowd: CROWD,
            most_dues: MOST_DUES,
            unquiet: 3,
        }
    }

    /// Members cast many times in a row, however much is on its way; one of them may crash.
    fn flooded(self, random: &mut Random, members: u8) -> Habits {
        Habits {
            ticks: 1 + random.below(10),
            bursts: 1 + random.below(6),
            crashes: some(random, 40, 2),
            most_crashed: members.saturating_sub(1).min(1),
            crowd: MOST_FLOODED,
            most_dues: MOST_FLOODED,
            unquiet: 2,
            ..self
        }
    }

    /// Members crash: mostly fewer than half of them, and sometimes all but one.
    fn crashing(self, random: &mut Random, members: u8) -> Habits {
        let others = members.saturating_sub(1);
        Habits {
            casts: 8 + random.below(20),
            ticks: 6 + random.below(20),
            parts: 0,
            crashes: 1 + random.below(4),
            most_crashed: if random.percent(75) {
                others / 2
            } else {
                others
            },
            unquiet: 2,
            ..self
        }
    }

    /// The network parts into three and heals.
    fn parting(self, random: &mut Random) -> Habits {
        Habits {
            casts: 8 + random.below(20),
            ticks: 6 + random.below(20),
            parts: 1 + random.below(6),
            in_three: true,
            unquiet: 2,
            ..self
        }
    }

    /// The habits of a run that becomes quiet: nothing is lost, and all that is due comes in order.
    pub(crate) fn quiet(self) -> Habits {
        Habits {
            casts: 0,
            sends: 0,
            leaves: 0,
            loses: 0,
            repeats: 0,
            overtakes: 0,
            parts: 0,
            ..self
        }
    }
}

/// A number from 1 to `most`, `often` times in a hundred; else 0.
fn some(random: &mut Random, often: u32, most: u32) -> u32 {
    if most > 0 && random.percent(often) {
        1u32.saturating_add(random.below(most))
    } else {
        0
    }
}

/// By how much a clock goes on: little, about as much as layers wait before they ask again, or so much that members are
/// suspected.
fn stride(random: &mut Random) -> u32 {
    match random.below(4) {
        0 => 20,
        1 => 110,
        2 => 250,
        _ => 700,
    }
}
