//! Events that pass layers.

ghost use Rattle.std.specs.Prelude.{◌≡◌, [], ◌∷◌, map};
ghost use Rattle.layer_mean.specs.Queue as spec;
ghost use Rattle.pool_message.specs.Sent.{CanPass};
ghost use Rattle.stack_queue.specs.Round.{Passes};
ghost use Rattle.stack_queue.specs.Passing.{Rest, GoesWith, Continues, StaysAt, standing_at};

use crate::places::beyond;
use layer_stage::Stage;
use layer_words::Dir;
use pool_message::PoolEvent;

/// An event that stands at a place, the only one with which a run goes on, passes the layers that have no handler for
/// it, up to an edge or to a layer that has one. Each layer that it passes is a visit. Answers where it stands then.
pub(crate) fn pass_along<S: Stage>(
    stages: &mut [S],
    at: u16,
    sent: &mut (Dir, PoolEvent),
    visits: &mut u64,
) -> u16
    requires { (r : Rest) × GoesWith S.place S.layer S.refs S.ready S.state S.taken r stages.old
        (standing_at at sent.old ∷ []) visits.old }
    ensures goes { Continues S.place S.layer S.refs S.ready S.state S.taken stages.old (standing_at at sent.old ∷ [])
        visits.old
        stages.new (standing_at result sent.new ∷ []) visits.new }
    ensures stays { StaysAt (map S.layer stages.new) (standing_at result sent.new) }
{
    let direction = sent.0;
    let mut here = at;
    while is_place(stages.len(), here) {
        if !stages[usize::from(here) - 1].pass(direction, &mut sent.1) {
            return here;
        }
        *visits += 1;
        here = beyond(direction, here);
    }
    here
}

/// An event passes a layer, if that has no handler for it. Says whether it did; where it didn't, nothing has changed.
pub(crate) fn pass_one<S: Stage>(stage: &mut S, sent: &mut (Dir, PoolEvent)) -> bool
    requires { CanPass sent.old.0 sent.old.1.message }
    ensures { Passes S.place S.layer S.refs S.ready S.state S.taken stage.old sent.old stage.new sent.new result }
{
    stage.pass(sent.0, &mut sent.1)
}

/// Whether one of `places` layers stands at a place.
fn is_place(places: usize, at: u16) -> bool
    ensures { result ≡ spec.is_place places at }
{
    at > 0 && usize::from(at) <= places
}
