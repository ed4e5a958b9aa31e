//! Laws of what is kept, each the contract of a function that does nothing.

ghost use Rattle.cell_store.specs.Laws.{ReadsAreSeen, ChangesAreSeen, LayersStay, RowsWeigh, ChangesAreUndone};

/// However rows are seen: what is read of the state that is seen is what is kept.
pub fn reads_are_seen<R>()
    ensures { ReadsAreSeen R }
{}

/// However rows are seen: what is kept after a change is seen as the state after that change.
pub fn changes_are_seen<R>()
    ensures { ChangesAreSeen R }
{}

/// Cells that are those of a layer stay so, and their queues keep as many rows as it says.
pub fn layers_stay<R>()
    ensures { LayersStay R }
{}

/// There is no row at first, and rows that come and go change the sum of any measure of all rows by theirs.
pub fn rows_weigh<R>()
    ensures { RowsWeigh R }
{}

/// A taken row that is put back in front, and a pushed one that is taken back, leave what was kept before.
pub fn changes_are_undone<R>()
    ensures { ChangesAreUndone R }
{}
