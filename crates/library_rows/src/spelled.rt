//! The texts of the library spell these trees, each at its places: worked out by evaluation. Nothing runs here.
ghost use Rattle.file_mean.specs.Library.{SpellsLayer};
ghost use Rattle.file_library.specs.Reliable.{bottom, mnak, pt2pt};
ghost use Rattle.file_library.specs.Flow.{pt2ptw, mflow, frag};
ghost use Rattle.file_library.specs.Order.{collect, stable, local, total};
ghost use Rattle.file_library.specs.Membership.{suspect, elect, sync, intra, top};
ghost use Rattle.library_rows.specs.Bottom as bottom_tree;
ghost use Rattle.library_rows.specs.Mnak as mnak_tree;
ghost use Rattle.library_rows.specs.Pt2pt as pt2pt_tree;
ghost use Rattle.library_rows.specs.Pt2ptw as pt2ptw_tree;
ghost use Rattle.library_rows.specs.Mflow as mflow_tree;
ghost use Rattle.library_rows.specs.Frag as frag_tree;
ghost use Rattle.library_rows.specs.Collect as collect_tree;
ghost use Rattle.library_rows.specs.Stable as stable_tree;
ghost use Rattle.library_rows.specs.Local as local_tree;
ghost use Rattle.library_rows.specs.Total as total_tree;
ghost use Rattle.library_rows.specs.Suspect as suspect_tree;
ghost use Rattle.library_rows.specs.Elect as elect_tree;
ghost use Rattle.library_rows.specs.Sync as sync_tree;
ghost use Rattle.library_rows.specs.Intra as intra_tree;
ghost use Rattle.library_rows.specs.Top as top_tree;

/// The text of `bottom`.
pub fn spells_bottom()
    ensures { SpellsLayer bottom bottom_tree.layer }
{}

/// The text of `mnak`.
pub fn spells_mnak()
    ensures { SpellsLayer mnak mnak_tree.layer }
{}

/// The text of `pt2pt`.
pub fn spells_pt2pt()
    ensures { SpellsLayer pt2pt pt2pt_tree.layer }
{}

/// The text of `pt2ptw`.
pub fn spells_pt2ptw()
    ensures { SpellsLayer pt2ptw pt2ptw_tree.layer }
{}

/// The text of `mflow`.
pub fn spells_mflow()
    ensures { SpellsLayer mflow mflow_tree.layer }
{}

/// The text of `frag`.
pub fn spells_frag()
    ensures { SpellsLayer frag frag_tree.layer }
{}

/// The text of `collect`.
pub fn spells_collect()
    ensures { SpellsLayer collect collect_tree.layer }
{}

/// The text of `stable`.
pub fn spells_stable()
    ensures { SpellsLayer stable stable_tree.layer }
{}

/// The text of `local`.
pub fn spells_local()
    ensures { SpellsLayer local local_tree.layer }
{}

/// The text of `total`.
pub fn spells_total()
    ensures { SpellsLayer total total_tree.layer }
{}

/// The text of `suspect`.
pub fn spells_suspect()
    ensures { SpellsLayer suspect suspect_tree.layer }
{}

/// The text of `elect`.
pub fn spells_elect()
    ensures { SpellsLayer elect elect_tree.layer }
{}

/// The text of `sync`.
pub fn spells_sync()
    ensures { SpellsLayer sync sync_tree.layer }
{}

/// The text of `intra`.
pub fn spells_intra()
    ensures { SpellsLayer intra intra_tree.layer }
{}

/// The text of `top`.
pub fn spells_top()
    ensures { SpellsLayer top top_tree.layer }
{}
