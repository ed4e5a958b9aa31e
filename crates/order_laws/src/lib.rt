//! Laws of order, each the contract of a function that does nothing: by which table a report keeps `sender` or
//! `total`, and which deliveries a report without a view change has. In `specs/`, what the lines of a report say.
#![tactic(auto)]

ghost use Rattle.order_laws.specs.Deliveries.{ToldAreFirst, ToldKeep};
ghost use Rattle.order_laws.specs.Calm.{CalmDeliveries};

/// Deliveries of which one table tells, list by list and place by place, have no clash.
pub fn told_keep()
    ensures { ToldKeep }
{}

/// Each of their lists is the first so many of what the table tells of it.
pub fn told_are_first()
    ensures { ToldAreFirst }
{}

/// The deliveries of lines that tell of no view are all in the first segment.
pub fn calm_deliveries()
    ensures { CalmDeliveries }
{}
