//! The classes of tokens and comments.
ghost use Rattle.std.specs.Prelude.{◌≡◌};
ghost use Rattle.std.specs.Str.{bytes_eq};
ghost use Rattle.format_mean.specs.Classes as spec;
ghost use Rattle.format_mean.specs.Layout.{is_remark};

use crate::marks::is_word_byte;
use format_mean::Class;

/// What a token or a comment is for the layout.
pub(crate) fn class_of(spelling: &[u8]) -> Class
    ensures { result ≡ spec.class_of spelling.now }
{
    match spelling.split_first() {
        Some((first, _)) if is_word_byte(*first) => word_class(spelling),
        Some((first, _)) => sign_class(*first),
        None => Class::Apart,
    }
}

/// The class of a word or number.
fn word_class(word: &[u8]) -> Class
    ensures { result ≡ spec.word_class word.now }
{
    if is(word, "layer") {
        Class::Layer
    } else if is(word, "stack") {
        Class::Stack
    } else if declares(word) {
        Class::Declaring
    } else if goes(word) {
        Class::Going
    } else if queues(word) {
        Class::Queueing
    } else if stands_apart(word) {
        Class::Apart
    } else {
        Class::Plain
    }
}

/// Whether a word is this one.
fn is(word: &[u8], text: &str) -> bool
    ensures { result ≡ bytes_eq word.now text.now }
{
    word == text.as_bytes()
}

/// Whether a declaration begins with a word.
fn declares(word: &[u8]) -> bool
    ensures { result ≡ spec.is_one_of word.now spec.declaring }
{
    is(word, "param") || is(word, "state") || is(word, "header")
}

/// Whether a word is one of the two directions.
fn goes(word: &[u8]) -> bool
    ensures { result ≡ spec.is_one_of word.now spec.going }
{
    is(word, "up") || is(word, "down")
}

/// Whether a queue is named after a word.
fn queues(word: &[u8]) -> bool
    ensures { result ≡ spec.is_one_of word.now spec.queueing }
{
    is(word, "push") || is(word, "take")
}

/// Whether a parenthesis stands apart from a word.
fn stands_apart(word: &[u8]) -> bool
    ensures { result ≡ spec.is_one_of word.now spec.apart }
{
    is(word, "if")
        || is(word, "rare")
        || is(word, "two")
        || is(word, "common")
        || is(word, "below")
        || is(word, "of")
        || is(word, "and")
        || is(word, "or")
}

/// The class of a comment or a sign, by its first byte.
fn sign_class(first: u8) -> Class
    ensures { result ≡ spec.sign_class first }
{
    match first {
        b'#' => Class::Remark,
        b'{' => Class::Opening,
        b'}' => Class::Closing,
        b'(' => Class::Parenthesis,
        b'[' => Class::Bracket,
        b'.' => Class::Dot,
        b';' => Class::Semicolon,
        b',' | b')' | b']' | b':' => Class::Tight,
        _ => Class::Apart,
    }
}

/// Whether no blank stands between two tokens.
pub(crate) fn are_joined(last: Class, next: Class) -> bool
    ensures { result ≡ spec.are_joined last next }
{
    holds_next(last) || holds_last(next) || calls(last, next)
}

/// Whether nothing stands apart after this.
fn holds_next(class: Class) -> bool
    ensures { result ≡ spec.holds_next class }
{
    matches!(class, Class::Parenthesis | Class::Bracket | Class::Dot)
}

/// Whether this stands apart from nothing before it.
fn holds_last(class: Class) -> bool
    ensures { result ≡ spec.holds_last class }
{
    matches!(
        class,
        Class::Semicolon | Class::Tight | Class::Dot | Class::Bracket
    )
}

/// Whether the first is a word that is called, as the second is a parenthesis.
fn calls(last: Class, next: Class) -> bool
    ensures { result ≡ spec.calls last next }
{
    matches!((last, next), (Class::Plain, Class::Parenthesis))
}

/// Whether a statement or declaration may begin after this.
pub(crate) fn ends_statement(class: Class) -> bool
    ensures { result ≡ spec.ends_statement class }
{
    matches!(
        class,
        Class::Opening | Class::Closing | Class::Semicolon | Class::Remark
    )
}

/// Whether this is an opening or closing brace.
pub(crate) fn is_brace(class: Class) -> bool
    ensures { result ≡ spec.is_brace class }
{
    matches!(class, Class::Opening | Class::Closing)
}

/// Whether this is a comment, which goes on to the end of its line.
pub(crate) fn is_remark(class: Class) -> bool
    ensures { result ≡ is_remark class }
{
    matches!(class, Class::Remark)
}

/// What a token counts as for the next one.
pub(crate) fn seen_after(last: Class, next: Class) -> Class
    ensures { result ≡ spec.seen_after last next }
{
    match (last, next) {
        (Class::Queueing, Class::Plain) => Class::Apart,
        _ => next,
    }
}
