//! Files whose names are resolved.

ghost use Rattle.std.specs.Prelude.{◌≡◌, None};
ghost use Rattle.layer_ast.specs.View.{file_tree};
ghost use Rattle.fault_mean.specs.NameFaults.{name_fault};
ghost use Rattle.file_names.specs.Tables.{IsTables};

use crate::tables::Tables;
use layer_ast::File;

/// A file without a fault of names, with a table of the words of each layer.
#[derive(Drop)]
pub struct Resolved {
    pub(crate) file: File,
    pub(crate) tables: Tables,
    ghost faultless: { name_fault (file_tree file) ≡ None },
    ghost tables_are: { IsTables tables (file_tree file) },
}
