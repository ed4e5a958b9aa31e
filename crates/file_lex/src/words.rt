//! Words: reserved ones and names.
ghost use Rattle.std.specs.Prelude.{◌≡◌, ◌≤◌, ◌++◌, ◌∷◌, [], OnOk, true, nat_eq, length, find};
ghost use Rattle.std.specs.Option.{option_map};
ghost use Rattle.std.specs.Str.{bytes_eq};
ghost use Rattle.layer_ast.specs.Cut.{word_token as token_of};
ghost use Rattle.layer_words.specs.Spelling.{beside, reserved};
ghost use Rattle.file_lex.specs.Parts.{begins_part};
ghost use Rattle.file_lex.specs.Tables.{shown_table, shown_groups, beside_in_group, are_in_row};
ghost use Rattle.layer_words.specs.WordBytes.{longest_word};

use layer_ast::{Lexed, Token};
use layer_words::{At, Kind, Sign, Word};
use std::alloc::AllocError;

/// Each reserved word that isn't a kind, under its first letter; the letters follow one another.
static RESERVED: [(u8, &[(&[u8], Sign)]); 23] = [
    (b'a', &[(b"at", Sign::AtRow), (b"and", Sign::And)]),
    (b'b', &[(b"below", Sign::Below), (b"bit", Sign::Bit)]),
    (
        b'c',
        &[
            (b"common", Sign::Common),
            (b"cut", Sign::Cut),
            (b"count", Sign::Count),
        ],
    ),
    (b'd', &[(b"down", Sign::Down)]),
    (
        b'e',
        &[
            (b"ends", Sign::Ends),
            (b"else", Sign::Else),
            (b"each", Sign::Each),
        ],
    ),
    (b'f', &[]),
    (b'g', &[]),
    (b'h', &[(b"header", Sign::Header), (b"held", Sign::Held)]),
    (b'i', &[(b"int", Sign::Int), (b"if", Sign::If)]),
    (b'j', &[(b"join", Sign::Join)]),
    (b'k', &[]),
    (
        b'l',
        &[
            (b"layer", Sign::Layer),
            (b"let", Sign::Let),
            (b"ltime", Sign::Ltime),
            (b"len", Sign::Len),
            (b"lowest", Sign::Lowest),
        ],
    ),
    (
        b'm',
        &[(b"msg", Sign::Msg), (b"max", Sign::Max), (b"me", Sign::Me)],
    ),
    (
        b'n',
        &[
            (b"n", Sign::N),
            (b"nothing", Sign::Nothing),
            (b"not", Sign::Not),
            (b"none", Sign::NoHeader),
        ],
    ),
    (b'o', &[(b"of", Sign::Of), (b"or", Sign::Or)]),
    (
        b'p',
        &[
            (b"param", Sign::Param),
            (b"part", Sign::Part),
            (b"passes", Sign::Passes),
            (b"push", Sign::Push),
            (b"pick", Sign::Pick),
        ],
    ),
    (b'q', &[(b"queue", Sign::Queue)]),
    (b'r', &[(b"rare", Sign::Rare)]),
    (
        b's',
        &[
            (b"stack", Sign::Stack),
            (b"state", Sign::State),
            (b"set", Sign::Set),
            (b"size", Sign::Size),
        ],
    ),
    (
        b't',
        &[
            (b"two", Sign::Two),
            (b"take", Sign::Take),
            (b"tail", Sign::Tail),
        ],
    ),
    (b'u', &[(b"up", Sign::Up)]),
    (b'v', &[]),
    (b'w', &[(b"with", Sign::With)]),
];

/// Adds the token of a word at its place.
#[tactic(auto, unfolding(layer_ast::specs::Cut::word_token))]
pub fn push_word(tokens: &mut Vec<Lexed>, word: &[u8], at: At) -> Result<(), AllocError>
    requires { 1 ≤ length word.now × length word.now ≤ longest_word }
    ensures { OnOk result (tokens.new.items ≡ tokens.old.items ++ record { token = token_of word.now; at = at } ∷ []) }
{
    if let Some(sign) = reserved_sign(word) {
        let token = Token::Sign(sign);
        tokens.push(Lexed { token, at })?;
        return Ok(());
    }
    match Kind::of_word(word) {
        Some(kind) => {
            let token = Token::Kind(kind);
            tokens.push(Lexed { token, at })?;
        }
        None => {
            let token = Token::Name(Word::of(word));
            tokens.push(Lexed { token, at })?;
        }
    }
    Ok(())
}

/// Whether a word begins a part of a text: a layer or the stack.
#[tactic(auto, using(crate::proofs::PartWords::layer_word, crate::proofs::PartWords::stack_word))]
pub fn is_part_word(word: &[u8]) -> bool
    ensures { result ≡ begins_part (token_of word.now) }
{
    word == b"layer".as_slice() || word == b"stack".as_slice()
}

fn reserved_sign(word: &[u8]) -> Option<Sign>
    requires { 1 ≤ length word.now }
    ensures { result ≡ beside reserved word.now }
{
    found_among(b'a', &RESERVED, word)
}

/// What stands beside a word in a table whose entries stand under their first bytes, which follow one another.
fn found_among<T: Copy>(base: u8, groups: &[(u8, &[(&[u8], T)])], word: &[u8]) -> Option<T>
    requires { are_in_row base groups.now ≡ true }
    ensures { result ≡ beside_in_group (shown_groups groups.now) word.now }
{
    let Some((first, _)) = word.split_first() else {
        return None;
    };
    match group_of(base, groups, *first) {
        Some(group) => found_in(group, word),
        None => None,
    }
}

/// The entries that stand under a byte, at its distance from the first.
#[tactic(auto)]
fn group_of<'a, T: Copy>(
    base: u8,
    groups: &[(u8, &'a [(&'a [u8], T)])],
    first: u8,
) -> Option<&'a [(&'a [u8], T)]>
    requires { are_in_row base groups.now ≡ true }
    ensures { option_map (λ group. group.now) result
        ≡ option_map (λ group. group.1.now) (find (λ group. nat_eq first group.0) groups.now) }
{
    if first < base {
        return None;
    }
    let place = usize::from(first - base);
    if place < groups.len() {
        Some(groups[place].1)
    } else {
        None
    }
}

/// What stands beside a word in a table.
fn found_in<T: Copy>(table: &[(&[u8], T)], word: &[u8]) -> Option<T>
    ensures { result ≡ beside (shown_table table.now) word.now }
{
    first_in(table, word)
}

fn first_in<T: Copy>(table: &[(&[u8], T)], word: &[u8]) -> Option<T>
    ensures { result ≡ option_map (λ entry. entry.1) (find (λ entry. bytes_eq entry.0.now word.now) table.now) }
{
    let entry = table.iter().find(|entry| entry.0 == word)?;
    Some(entry.1)
}
