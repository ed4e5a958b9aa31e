//! Laws of the first fault. Nothing runs here.
ghost use Rattle.fault_mean.specs.EarliestOf.{IsFirst, IsInOrder, IsThere};
ghost use Rattle.fault_mean.specs.Faults.{name_key, type_key};

/// Whatever was found before, the first fault of one list and then that of another yield the same as the first fault of
/// both in a row.
pub fn in_order()
    ensures names { IsInOrder name_key }
    ensures types { IsInOrder type_key }
{}

/// The first fault of a list is one of the list, none of the list comes before it, and there is one where there are
/// faults.
pub fn first()
    ensures first_name { IsFirst name_key }
    ensures first_type { IsFirst type_key }
    ensures some_name { IsThere name_key }
    ensures some_type { IsThere type_key }
{}
