//! Laws of whole replays, each the contract of a function that does nothing: from the bytes of a stack and of a script
//! to each step of their run, to the datagrams that are sent and to what is written.
#![tactic(auto)]

pub mod samples;

ghost use Rattle.replay_laws.specs.Scripts.{ScriptsAreGiven};
ghost use Rattle.replay_laws.specs.Standing.{EventsKeepStanding, FirstWorldIsStanding, MomentsAreStanding};
ghost use Rattle.replay_laws.specs.Standing.{OpenedIsStanding, RunsKeepStanding, StepsKeepStanding};
ghost use Rattle.replay_laws.specs.Steps.{MomentsAreSteps, ReplaysArePlayed};
ghost use Rattle.replay_laws.specs.Short.{LayeredIsFull, ShortExactlyWhere, WiresAreShortWhereDue};
ghost use Rattle.replay_laws.specs.Datagrams.{DatagramsAreNumbered, LinesAreWoven};
ghost use Rattle.replay_laws.specs.Missed.{MissedIsOnTheWay, PredictedDecideAll};
ghost use Rattle.replay_laws.specs.Replays.{PacketsExpand, ReplaysMissOnTheWay, ReplaysWriteDatagrams};
ghost use Rattle.replay_laws.specs.Replays.{ReplaysWriteTheReport, RunsExpand};
ghost use Rattle.replay_laws.specs.Told.{EventsAreTheScript, ReplaysTellEvents, UntoldIsTheOutput};
ghost use Rattle.replay_laws.specs.Told.{WithoutEventsIsTheOutput};

/// A script that a text spells is made of bytes and numbers, and can be run.
pub fn scripts_are_given()
    ensures { ScriptsAreGiven }
{}

/// A run keeps the rank, the number of members and the count of views of each state.
pub fn runs_keep_standing()
    ensures { RunsKeepStanding }
{}

/// The states of a member that comes into a view have the rank, the number of members and the count of views of that
/// view.
pub fn opened_is_standing()
    ensures { OpenedIsStanding }
{}

/// A step keeps all three, in its view or in the one that it installs.
pub fn steps_keep_standing()
    ensures { StepsKeepStanding }
{}

/// So the members of the first world stand in their view.
pub fn first_world_is_standing()
    ensures { FirstWorldIsStanding }
{}

/// An event keeps them standing in their views.
pub fn events_keep_standing()
    ensures { EventsKeepStanding }
{}

/// Along a run the members stand in their views before and after each event.
pub fn moments_are_standing()
    ensures { MomentsAreStanding }
{}

/// Each moment of a run is a step of the definition, in chained states, or leaves the world as it was.
pub fn moments_are_steps()
    ensures { MomentsAreSteps }
{}

/// So are those of a replay, whose bytes mean an accepted stack and spell a script.
pub fn replays_are_played()
    ensures { ReplaysArePlayed }
{}

/// An output is sent short exactly where its step is a common cast or send of an application and its position in the
/// shape has a plan.
pub fn short_exactly_where()
    ensures { ShortExactlyWhere }
{}

/// Where all is layered, none is.
pub fn layered_is_full()
    ensures { LayeredIsFull }
{}

/// The bytes of a packet have the short form exactly where it is due.
pub fn wires_are_short_where_due()
    ensures { WiresAreShortWhereDue }
{}

/// The datagrams of a run are those of its packets, in order, and numbered as these are.
pub fn datagrams_are_numbered()
    ensures { DatagramsAreNumbered }
{}

/// The lines of a run with its packets' bytes are those without, with the bytes of each packet's datagram after the
/// packet's line.
pub fn lines_are_woven()
    ensures { LinesAreWoven }
{}

/// A step's first decision that doesn't go as predicted is one on the way of its entry's shape.
pub fn missed_is_on_the_way()
    ensures { MissedIsOnTheWay }
{}

/// A step that goes as predicted decides as often as its entry's shape says.
pub fn predicted_decide_all()
    ensures { PredictedDecideAll }
{}

/// Each datagram of a run spells the layered packet of its number, in whatever mode, and is short exactly where it is
/// due; there is one for each packet.
pub fn runs_expand()
    ensures { RunsExpand }
{}

/// So does each of a replay.
pub fn packets_expand()
    ensures { PacketsExpand }
{}

/// What a replay writes without its packets' bytes is the layered report, in whatever mode, and the number of visits
/// where it is wanted.
pub fn replays_write_the_report()
    ensures { ReplaysWriteTheReport }
{}

/// What a replay with its packets' bytes writes is the layered report, and after the line of each packet the bytes of a
/// datagram that spells it.
pub fn replays_write_datagrams()
    ensures { ReplaysWriteDatagrams }
{}

/// Without the events a replay writes the output that knows of none, byte for byte.
pub fn untold_is_the_output()
    ensures { UntoldIsTheOutput }
{}

/// A report with the events is the one without them, in order, once the lines of events are taken out.
pub fn without_events_is_the_output()
    ensures { WithoutEventsIsTheOutput }
{}

/// The lines that are taken out are the script's events, in order.
pub fn events_are_the_script()
    ensures { EventsAreTheScript }
{}

/// So each replay with the events tells those of its script, and else writes what it writes without them.
pub fn replays_tell_events()
    ensures { ReplaysTellEvents }
{}

/// Along a replay each step's first decision that doesn't go as predicted is one on the way of its entry's shape.
pub fn replays_miss_on_the_way()
    ensures { ReplaysMissOnTheWay }
{}
