//! The words of a command line.

ghost use Rattle.std.specs.Prelude.{◌≡◌, drop};

use std::env;
use std::io::{self, ErrorKind};
use std::rt::Env;

/// The words of the command line, without the program's name. Where one of them isn't UTF-8 there are none, since such
/// words ask for nothing. An error says that memory ran out.
pub fn command_words<R: AllocGlobal + Env>(system: &R) -> io::Result<Vec<String>> {
    match env::args(system) {
        Ok(all) => {
            let mut words = Vec::new(system.alloc());
            words.extend(all)?;
            Ok(without_name(words))
        }
        Err(error) if error.kind() == ErrorKind::InvalidData => Ok(Vec::new(system.alloc())),
        Err(error) => Err(error),
    }
}

/// The words after the first, which is the program's name.
fn without_name(words: Vec<String>) -> Vec<String>
    ensures { result.items ≡ drop 1 words.items }
{
    let mut words = words;
    if !words.is_empty() {
        let _ = words.remove(0);
    }
    words
}
