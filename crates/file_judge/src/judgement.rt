//! The judgement of a text.

ghost use Rattle.std.specs.Prelude.{◌≤◌, length};
ghost use Rattle.layer_ast.specs.Spells.{longest_file};
ghost use Rattle.layer_ast.specs.View.{file_tree};
ghost use Rattle.file_mean.specs.Library.{IsFile};
ghost use Rattle.typed_layer.specs.Places.{typed_tree};
ghost use Rattle.file_names.specs.Answer.{resolved_tree};
ghost use Rattle.file_judge.specs.Answer.{Judges, IsStackOf, Reads};

use crate::error::FileError;
use file_names::{Resolved, resolve};
use file_parse::parse;
use file_types::check;
use layer_ast::File;
use stack_judge::{Stack, accept};
use std::alloc::Global;
use typed_layer::Typed;

/// The tree of the file that these bytes spell, with the layers that the library brings it; or the first cause for
/// which they spell none.
pub fn read_file(alloc: Global, text: &[u8]) -> Result<File, FileError>
    ensures { Reads text.now result }
{
    let file = parse(alloc, text)?;
    Ok(file)
}

/// The accepted stack that the bytes of a layer file mean, or the first cause for which the file is refused.
pub fn judge(alloc: Global, text: &[u8]) -> Result<Stack, FileError>
    ensures { Judges text.now result }
{
    let file = read_file(alloc, text)?;
    judge_names(alloc, text, file)
}

/// Judges a file that a text is: its names, then the rest.
fn judge_names(alloc: Global, text: &[u8], file: File) -> Result<Stack, FileError>
    requires small { length text.now ≤ longest_file }
    requires is_file { IsFile text.now (file_tree file) }
    ensures { Judges text.now result }
{
    let resolved = resolve(alloc, file)?;
    judge_types(alloc, text, resolved)
}

/// Judges a file without a fault of names: its types, then the stack.
fn judge_types(alloc: Global, text: &[u8], resolved: Resolved) -> Result<Stack, FileError>
    requires small { length text.now ≤ longest_file }
    requires is_file { IsFile text.now (resolved_tree resolved) }
    ensures { Judges text.now result }
{
    let typed = check(alloc, resolved)?;
    judge_stack(alloc, text, typed)
}

/// Judges the stack that a file without a fault of names or types means.
fn judge_stack(alloc: Global, text: &[u8], typed: Typed) -> Result<Stack, FileError>
    requires { IsStackOf text.now (typed_tree typed) }
    ensures { Judges text.now result }
{
    let stack = accept(alloc, typed)?;
    Ok(stack)
}
