//! Common steps, by the code of their bypasses.

ghost use Rattle.std.specs.Prelude.{◌≡◌, ℕ, ◌≤◌, List, flat_map, vec_capacity};
ghost use Rattle.std.specs.List.{AllByRecursion};
ghost use Rattle.member_laws.specs.Members.{IsEntered};
ghost use Rattle.msg_core.specs.View as members;
ghost use Rattle.layer_mean.specs.declared.run.Case.TheVariants as cases;
ghost use Rattle.packet_mean.specs.declared.here.Here as stands;
ghost use Rattle.stack_mean.specs.Acceptance.{largest_weight};
ghost use Rattle.stack_mean.specs.Plan as mean;
ghost use Rattle.stack_shapes.specs.Entries.{entry_for};
ghost use Rattle.stack_shapes.specs.Trees.{plans_tree};
ghost use Rattle.code_tests.specs.Registers.{input_of};
ghost use Rattle.code_table.specs.Room.{ServesAll};
ghost use Rattle.handler_laws.specs.Handled.{step_input};
ghost use Rattle.group_member.specs.Judged.{body_of, entry_meant, IsKnown, LiesWithin};
ghost use Rattle.packet_full.specs.Scanned.{packet_scanned};
ghost use Rattle.packet_mean.specs.Plan.{kind_of, least_fit};
ghost use Rattle.packet_short.specs.Keeping.{HasAtMost, kept_by};
ghost use Rattle.packet_short.specs.Layouts.{IsReadAs};
ghost use Rattle.group_member.specs.Serving.{IsSpare};
ghost use Rattle.group_member.specs.Stepping.{codes_in, plans_in, stack_of, IsGround};
ghost use Rattle.group_member.specs.Trying.{fields_given, AreGiven, Handles, IsBegun, IsTried, MakesCommon, Tries};
ghost use Rattle.group_member.specs.Viewing.{IsIn};
ghost use Rattle.group_member.specs.Working.{states_in, IsReady};

use crate::entry::Entry;
use crate::ground::Ground;
use crate::scratch::Scratch;
use crate::works::Works;
use code_run::perform;
use code_table::Codes;
use code_tests::{Given, Values};
use handler_laws::law_steps_are_handled;
use layer_mean::Case;
use packet_full::Scan;
use packet_mean::Here;
use packet_short::fits_scan;
use stack_shapes::{EntryOf, Plans};
use step_outputs::Outputs;

/// The code that is looked for, by the entry of what entered, and what it is given.
#[derive(Drop)]
pub(crate) struct Tried<'c, 'g> {
    pub(crate) codes: &'c Codes,
    pub(crate) entry: EntryOf,
    pub(crate) given: Given<'g>,
}

/// Finds the number of the least plan that the packet of a scan fits, and keeps the fields that this plan leaves
/// variable; where reading told the number, they are kept already.
#[inline(always)]
fn keep_packet(plans: &Plans, scan: &Scan, known: Option<u8>, fields: &mut Vec<u32>) -> Option<u8>
    requires room { AllByRecursion (HasAtMost (vec_capacity fields.old)) (plans_tree plans.now) }
    requires known { IsReadAs (plans_tree plans.now) known (kind_of scan.now.dest) scan.now.headers fields.old.items }
    ensures fits { (here : stands.Here) (bytes : List ℕ) →
        result ≡ least_fit (plans_tree plans.now) (packet_scanned here bytes scan.now) }
    ensures fields { fields.new.items ≡
        kept_by (plans_tree plans.now) result (flat_map (λ h. h.fields) scan.now.headers) }
    ensures capacity { vec_capacity fields.new ≡ vec_capacity fields.old }
{
    match known {
        Some(number) => Some(number),
        None => fits_scan(plans, scan, fields),
    }
}

/// The entry that tells whether a step is common. The fields of a packet that its plan leaves variable are kept; only
/// packets have such fields.
#[inline(always)]
pub(crate) fn keep_entry(plans: &Plans, entry: &Entry<'_>, fields: &mut Vec<u32>) -> EntryOf
    requires room { AllByRecursion (HasAtMost (vec_capacity fields.old)) (plans_tree plans.now) }
    requires known { IsKnown (plans_tree plans.now) fields.old.items entry.now }
    ensures what { (here : stands.Here) → result ≡ entry_for (plans_tree plans.now) (entry_meant here entry.now) }
    ensures fields { (here : stands.Here) →
        fields.new.items ≡ fields_given (plans_tree plans.now) (entry_meant here entry.now) }
    ensures capacity { vec_capacity fields.new ≡ vec_capacity fields.old }
{
    match entry {
        Entry::Cast(_) => {
            fields.clear();
            EntryOf::Cast
        }
        Entry::Send(_, _) => {
            fields.clear();
            EntryOf::Send
        }
        Entry::Leave => {
            fields.clear();
            EntryOf::None
        }
        Entry::Tick(_) => {
            fields.clear();
            EntryOf::None
        }
        Entry::Packet(scan, _, known) => match keep_packet(plans, scan, *known, fields) {
            Some(number) => EntryOf::Plan(number),
            None => EntryOf::None,
        },
    }
}

/// The peer of what entered: the own rank for a cast, the rank that is sent to, or the sender.
fn peer_of(here: &Here, entry: &Entry<'_>) -> u32
    ensures { (plans : List mean.Plan) → result ≡ (step_input plans here.now (entry_meant here.now entry.now)).peer }
{
    match entry {
        Entry::Cast(_) => u32::from(here.rank),
        Entry::Send(to, _) => *to,
        Entry::Leave => 0,
        Entry::Tick(_) => 0,
        Entry::Packet(scan, _, _) => u32::from(scan.sender),
    }
}

/// The body of what entered; none where it has none.
fn body_in<'a>(entry: &'a Entry<'_>) -> &'a [u8]
    requires lies { LiesWithin entry.now }
    ensures { result.now ≡ body_of entry.now }
{
    match entry {
        Entry::Cast(body) => body,
        Entry::Send(_, body) => body,
        Entry::Leave => &[],
        Entry::Tick(_) => &[],
        Entry::Packet(scan, bytes, _) => &bytes[scan.body as usize..],
    }
}

/// What code is given of what entered, beside the fields that were kept.
pub(crate) fn given_of<'a>(
    _plans: &Plans,
    here: &Here,
    count: u32,
    entry: &'a Entry<'_>,
    fields: &'a [u32],
) -> Given<'a>
    requires count { count ≡ members.member_count here.now.view }
    requires few { count ≤ members.most_members }
    requires lies { LiesWithin entry.now }
    requires fields { fields.now ≡ fields_given (plans_tree _plans.now) (entry_meant here.now entry.now) }
    ensures given { input_of result ≡ step_input (plans_tree _plans.now) here.now (entry_meant here.now entry.now) }
    ensures members { result.count ≤ members.most_members }
    ensures body { result.body.now ≡ body_of entry.now }
{
    Given {
        me: u32::from(here.rank),
        count,
        ltime: here.view.ltime,
        peer: peer_of(here, entry),
        fields,
        body: body_in(entry),
    }
}

/// Makes a step by its code in a case, if there is any and it passes, and answers whether it did.
#[inline(always)]
fn try_case(
    works: &mut Works,
    values: &mut Values,
    ground: &Ground<'_>,
    tried: &Tried<'_, '_>,
    case: Case,
    _entry: &Entry<'_>,
    out: &mut Outputs,
) -> bool
    requires ready { IsReady (stack_of ground.now) ground.now.most works.old }
    requires is_in { IsIn (stack_of ground.now) ground.now.most ground.now.here.now.view ground.now.id
        (states_in works.old) }
    requires tried { IsTried ground.now (entry_meant ground.now.here.now _entry.now) tried.now }
    requires handles { Handles ground.now (states_in works.old) (entry_meant ground.now.here.now _entry.now)
        tried.now.codes.now case }
    requires serves { ServesAll tried.now.codes.now values.old }
    requires begun { IsBegun ground.now out.old }
    ensures tries { Tries case ground.now works.old (entry_meant ground.now.here.now _entry.now) out.old works.new
        out.new result }
    ensures serves { ServesAll tried.now.codes.now values.new }
    ensures places { out.new.places ≡ out.old.places }
{
    let Some(code) = tried.codes.at(tried.entry, case) else {
        return false
    };
    ground.stack.law_within_limits();
    let layers = works.layers.as_mut_slice();
    perform(code, &tried.given, layers, &mut works.pool, values, out)
}

/// Makes a step by its code in the first case in which the code passes, and answers this case, if there is one.
#[inline(always)]
fn try_cases(
    works: &mut Works,
    values: &mut Values,
    ground: &Ground<'_>,
    tried: &Tried<'_, '_>,
    entry: &Entry<'_>,
    out: &mut Outputs,
) -> Option<Case>
    requires ready { IsReady (stack_of ground.now) ground.now.most works.old }
    requires is_in { IsIn (stack_of ground.now) ground.now.most ground.now.here.now.view ground.now.id
        (states_in works.old) }
    requires tried { IsTried ground.now (entry_meant ground.now.here.now entry.now) tried.now }
    requires first { Handles ground.now (states_in works.old) (entry_meant ground.now.here.now entry.now)
        tried.now.codes.now cases.First }
    requires second { Handles ground.now (states_in works.old) (entry_meant ground.now.here.now entry.now)
        tried.now.codes.now cases.Second }
    requires serves { ServesAll tried.now.codes.now values.old }
    requires begun { IsBegun ground.now out.old }
    ensures made { MakesCommon ground.now works.old (entry_meant ground.now.here.now entry.now) works.new out.new
        result }
    ensures serves { ServesAll tried.now.codes.now values.new }
    ensures places { out.new.places ≡ out.old.places }
{
    if try_case(works, values, ground, tried, Case::First, entry, out) {
        return Some(Case::First);
    }
    if try_case(works, values, ground, tried, Case::Second, entry, out) {
        return Some(Case::Second);
    }
    None
}

/// Makes a common step by its code, and tells its case; where there is no code, or none passes, nothing has changed.
#[inline(always)]
pub(crate) fn make_common<'x>(
    works: &mut Works,
    scratch: &'x mut Scratch,
    ground: &Ground<'_>,
    what: EntryOf,
    entry: &'x Entry<'_>,
    out: &mut Outputs,
) -> Option<Case>
    requires ground { IsGround ground.now }
    requires ready { IsReady (stack_of ground.now) ground.now.most works.old }
    requires spare { IsSpare (codes_in ground.now) (plans_in ground.now) scratch.old }
    requires is_in { IsIn (stack_of ground.now) ground.now.most ground.now.here.now.view ground.now.id
        (states_in works.old) }
    requires entered { IsEntered (stack_of ground.now) (entry_meant ground.now.here.now entry.now) }
    requires lies { LiesWithin entry.now }
    requires what { (here : stands.Here) → what ≡ entry_for (plans_in ground.now) (entry_meant here entry.now) }
    requires fields { AreGiven ground.now entry.now scratch.old.fields.items }
    requires out { out.old.places ≡ largest_weight (stack_of ground.now) }
    ensures made { MakesCommon ground.now works.old (entry_meant ground.now.here.now entry.now) works.new out.new
        result }
    ensures spare { IsSpare (codes_in ground.now) (plans_in ground.now) scratch.new }
    ensures fields { scratch.new.fields ≡ scratch.old.fields }
    ensures places { out.new.places ≡ out.old.places }
{
    let Some(codes) = ground.codes else {
        return None
    };
    law_steps_are_handled();
    ground.stack.law_accepted();
    if let EntryOf::None = what {
        return None;
    }
    let given = given_of(
        ground.plans,
        ground.here,
        ground.count,
        entry,
        scratch.fields.as_slice(),
    );
    let tried = Tried {
        codes,
        entry: what,
        given,
    };
    out.begin(*ground.here);
    try_cases(works, &mut scratch.values, ground, &tried, entry, out)
}
