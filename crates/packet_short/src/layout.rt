//! Headers of plans, laid out once, so that a short datagram only fills in what varies.

ghost use Rattle.std.specs.Prelude.{◌≡◌, ◌+◌, ◌≤◌, ◌++◌, [], IfOk, IfSome, OnOk, Some, None, length, map, option_map};
ghost use Rattle.std.specs.Prelude.{if◌then◌else◌};
ghost use Rattle.std.specs.Prelude.{vec_capacity, vec_len};
ghost use Rattle.std.specs.List.{AllByRecursion};
ghost use Rattle.msg_core.specs.Headers.{most_fields};
ghost use Rattle.packet_full.specs.Taking.{Takes, left};
ghost use Rattle.packet_mean.specs.Plan.{variable};
ghost use Rattle.packet_mean.specs.Reading as reading;
ghost use Rattle.packet_short.specs.Laid as laid;
ghost use Rattle.packet_short.specs.Laid.{filled, loose_at, loose_from, HasRoom, IsWithin};
ghost use Rattle.packet_short.specs.Layouts.{loose_tree, looses};

use msg_core::{Fields, Header, Headers, Memory};
use packet_full::Cursor;
use stack_shapes::Plan;
use std::alloc::Global;

/// A header of a plan of which a field is variable: its place, its tag, and its fields as planned.
#[derive(Drop)]
pub(crate) struct Loose {
    pub(crate) place: u8,
    pub(crate) tag: u8,
    pub(crate) own: Vec<Option<u32>>,
}

/// The headers of a plan, whole except for the fields that the plan leaves variable; those of them that have such a
/// field; and whether no plan of a lesser number has this plan's print.
#[derive(Drop)]
pub(crate) struct Layout {
    pub(crate) headers: Headers,
    pub(crate) loose: Vec<Loose>,
    pub(crate) is_least: bool,
}

impl Loose {
    /// Reads its fields; the variable ones are put after others.
    fn fields(&self, cursor: &mut Cursor<'_>, into: &mut Vec<u32>) -> Option<Fields>
        requires few { length self.now.own.items ≤ most_fields }
        requires room { vec_len into.old + length self.now.own.items ≤ vec_capacity into.old }
        ensures read { Takes (reading.planned_fields self.now.own.items (left cursor.old)) result (left cursor.new) }
        ensures items { IfSome result (λ own. into.new.items ≡ into.old.items ++ variable self.now.own.items own) }
        ensures len { IfSome result (λ _. vec_len into.new ≤ vec_len into.old + length self.now.own.items) }
        ensures capacity { vec_capacity into.new ≡ vec_capacity into.old }
    {
        let mut own = Fields::new();
        for planned in self.own.as_slice() {
            match planned {
                Some(constant) => own.push(*constant),
                None => {
                    let Some(number) = cursor.number() else {
                        return None
                    };
                    into.push_reserved(number);
                    own.push(number);
                }
            }
        }
        Some(own)
    }
}

impl Layout {
    /// Reads the headers of a short datagram: a copy of these headers, with what varies filled in as it is read. Then
    /// `fields` has the variable fields, in place of what it held.
    #[inline(never)]
    pub(crate) fn read(
        &self,
        cursor: &mut Cursor<'_>,
        headers: &mut Headers,
        fields: &mut Vec<u32>,
    ) -> Option<()>
        requires room { HasRoom (vec_capacity fields.old) (length self.now.headers) (looses self.now) }
        ensures read { Takes (filled (looses self.now) self.now.headers [] (left cursor.old))
            (option_map (λ _. (headers.new, fields.new.items)) result) (left cursor.new) }
        ensures capacity { vec_capacity fields.new ≡ vec_capacity fields.old }
    {
        let mut following = *cursor;
        headers.copy_from(&self.headers);
        fields.clear();
        for loose in self.loose.as_slice() {
            let Some(own) = loose.fields(&mut following, fields) else {
                return None
            };
            headers.set(
                loose.place,
                Header {
                    layer: loose.place,
                    tag: loose.tag,
                    fields: own,
                },
            );
        }
        *cursor = following;
        Some(())
    }

    /// The number of the layout's plan, if this is known to be the least plan that fits what was read by it.
    pub(crate) fn known(&self, number: u8) -> Option<u8>
        ensures { result ≡ (if self.now.is_least then Some number else None) }
    {
        if self.is_least { Some(number) } else { None }
    }
}

/// Whether one of these fields is variable.
fn is_loose(planned: &[Option<u32>]) -> bool
    ensures { result ≡ laid.is_loose planned.now }
{
    for field in planned {
        if field.is_none() {
            return true;
        }
    }
    false
}

/// Puts a header after others, if a field of it is variable.
fn add_loose(
    alloc: Global,
    place: u8,
    tag: u8,
    own: &[Option<u32>],
    loose: &mut Vec<Loose>,
) -> Result<(), Memory>
    ensures { OnOk result (map loose_tree loose.new.items ≡
        map loose_tree loose.old.items ++ loose_at place tag own.now) }
{
    if !is_loose(own) {
        return Ok(());
    }
    let mut kept = Vec::new(alloc);
    kept.extend_from_slice(own)?;
    loose.push(Loose {
        place,
        tag,
        own: kept,
    })?;
    Ok(())
}

/// Those of a plan's headers that have a variable field; None if the headers have more fields than are planned.
pub(crate) fn loose_of(
    alloc: Global,
    plan: &Plan,
    headers: &Headers,
) -> Result<Option<Vec<Loose>>, Memory>
    ensures loose { IfOk result (λ found. IfSome found (λ loose.
        map loose_tree loose.items ≡ loose_from 0 plan.now.fields.items headers.now)) }
    ensures few { IfOk result (λ found. IfSome found (λ loose.
        AllByRecursion (IsWithin (length headers.now)) (map loose_tree loose.items))) }
{
    let mut loose = Vec::new(alloc);
    let mut planned = plan.fields.as_slice();
    let all = headers.slice();
    for place in 0..headers.len() {
        let header = &all[place as usize];
        let Some((own, rest)) = planned.split_at_checked(header.fields.len() as usize) else {
            return Ok(None)
        };
        add_loose(alloc, place as u8, header.tag, own, &mut loose)?;
        planned = rest;
    }
    Ok(Some(loose))
}
