//! The one layout of layer files: what a text has in it, tokens and comments in their order, and how these are laid out
//! in lines; and that laying out changes neither, and nothing the second time. Nothing runs here.
#![tactic(auto)]

ghost use Rattle.format_mean.specs.Laws.{KeepsTokens, KeepsMarks, IsStable};
ghost use Rattle.format_mean.specs.Library.{LibraryStays};
ghost use Rattle.format_mean.specs.Samples.{ParesLines, PartsStatements, LaysStack};

mod stand;

pub use stand::{COMMENT_COLUMN, Class, DEEPEST, HANG, STEP, Stand};

/// What was laid out has the tokens of the text, or a bad token where the text has one.
pub fn keeps_tokens()
    ensures { KeepsTokens }
{}

/// It has its tokens and comments in their order, each as it is spelled.
pub fn keeps_marks()
    ensures { KeepsMarks }
{}

/// Laying it out once more changes nothing.
pub fn is_stable()
    ensures { IsStable }
{}

/// A small text with a comment, two blank lines and blanks at ends of lines, laid out.
pub fn pares_lines()
    ensures { ParesLines }
{}

/// A layer in one line, laid out.
pub fn parts_statements()
    ensures { PartsStatements }
{}

/// A stack in one line stays so.
pub fn lays_stack()
    ensures { LaysStack }
{}

/// Laying out changes none of the library's texts.
pub fn library_stays()
    ensures { LibraryStays }
{}
