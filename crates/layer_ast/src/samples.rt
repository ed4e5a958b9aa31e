//! Small texts, worked out by evaluation: the definitions compute. Nothing runs here.
ghost use Rattle.std.specs.Prelude.{◌≡◌};
ghost use Rattle.layer_ast.specs.Reader.{file_of};
ghost use Rattle.layer_ast.specs.Samples.{CutsText, CutsLetter, CutsNumbers, SpellsPlace, SpellsLayer, KeepsPlaces};
ghost use Rattle.layer_ast.specs.Samples.{sample_text, sample_file};

/// A text with a comment, a name that begins like a reserved word, long symbols and a bad byte.
pub fn cuts_text()
    ensures { CutsText }
{}

/// A number with a letter directly after it.
pub fn cuts_letter()
    ensures { CutsLetter }
{}

/// Numbers at their limits.
pub fn cuts_numbers()
    ensures { CutsNumbers }
{}

/// A file with one place.
pub fn spells_place()
    ensures { SpellsPlace }
{}

/// A file with a layer and two places: most forms of declarations, statements and expressions.
pub fn spells_layer()
    ensures { SpellsLayer }
{}

/// How many places the tree of that file keeps.
pub fn keeps_places()
    ensures { KeepsPlaces }
{}

/// That file is what its text is read as, where samples are read.
pub fn reads_layer()
    ensures { file_of sample_text ≡ sample_file }
{}
