//! Laws of files without faults, each the contract of a function that does nothing: they mean typed stacks, of layers
//! within the bounds of what members keep.
#![tactic(auto)]

pub mod samples;

ghost use Rattle.file_laws.specs.Files.{FilesAreTyped};
ghost use Rattle.file_laws.specs.Named.{FilesAreNamed, TextsAreNamed};
ghost use Rattle.file_laws.specs.Texts.{TextsAreLiteral, TextsAreTyped};
ghost use Rattle.file_laws.specs.Bounds.{FilesAreHeld};
ghost use Rattle.file_laws.specs.Headers.{StacksHaveFewHeaders, TypedHaveFewHeaders};

/// A file with no fault of names or types means a typed stack.
pub fn files_are_typed()
    ensures { FilesAreTyped }
{}

/// The numbers of a file that a text is are below 2^32.
pub fn texts_are_literal()
    ensures { TextsAreLiteral }
{}

/// A text that is a file with no fault of names or types means a typed stack.
pub fn texts_are_typed()
    ensures { TextsAreTyped }
{}

/// What the layers of a file with no fault of names or types name is there, in the form in which it is used.
pub fn files_are_named()
    ensures { FilesAreNamed }
{}

/// So it is with the layers of a text that is such a file.
pub fn texts_are_named()
    ensures { TextsAreNamed }
{}

/// A file with a place and no fault of names or types means layers that members can run: each number that they keep in
/// a byte fits there, and no list is longer than they keep.
pub fn files_are_held()
    ensures { FilesAreHeld }
{}

/// Each layer of the stack that a file within the bounds means declares at most seven headers.
pub fn stacks_have_few_headers()
    ensures { StacksHaveFewHeaders }
{}

/// So does each of the typed layers that are this stack.
pub fn typed_have_few_headers()
    ensures { TypedHaveFewHeaders }
{}
