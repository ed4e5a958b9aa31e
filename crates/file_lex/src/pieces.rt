//! The pieces of a text: gaps and tokens.
ghost use Rattle.std.specs.Prelude.{◌≡◌, ℕ, List, ◌+◌, ◌<◌, ◌≤◌, ◌∷◌, true, false, length, MatchOption, suc, take, not};
ghost use Rattle.std.specs.Prelude.{nat_eq};
ghost use Rattle.std.specs.Char.{is_ascii_digit};
ghost use Rattle.std.specs.List.{prefix_len};
ghost use Rattle.layer_ast.specs.Cut.{piece as piece_of, word_piece, number_piece, symbol_piece};
ghost use Rattle.layer_ast.specs.Cut.{number_of};
ghost use Rattle.layer_words.specs.Spelling.{is_blank as is_gap, is_word_byte as goes_on_word};
ghost use Rattle.file_lex.specs.Pieces.{found, more_of, is_flat, IsFront};

use layer_words::{LONGEST_WORD, Sign};

/// What a text begins with, and how many bytes of it stand after its first.
#[derive(Clone, Copy)]
pub enum Piece {
    Gap { following: usize },
    Word { following: usize },
    Number { value: u32, following: usize },
    Symbol { sign: Sign, following: usize },
    Bad,
}

/// The piece that a text begins with, given also as its first byte, which is no blank, and the bytes after that. It
/// stands in one line.
#[tactic(auto, unfolding(layer_ast::specs::Cut::piece), using(crate::proofs::Flat::line_flat))]
pub fn piece_at(after_number: bool, first: u8, following: &[u8], text: &[u8]) -> Piece
    requires text { text.now ≡ first ∷ following.now }
    requires no_blank { is_gap first ≡ false }
    ensures piece { found text.now result ≡ piece_of after_number first following.now }
    ensures front { IsFront text.now result }
    ensures within { more_of (found text.now result) ≤ length following.now }
    ensures flat { is_flat (take (more_of (found text.now result)) following.now) ≡ true }
{
    if first == b'#' {
        return Piece::Gap {
            following: line_length(following),
        };
    }
    if first.is_ascii_alphabetic() {
        return if after_number {
            Piece::Bad
        } else {
            word(first, following, text)
        };
    }
    if first.is_ascii_digit() {
        return number(first, following, text);
    }
    symbol(first, following)
}

/// Whether a byte stands between tokens: a blank, a tab, a carriage return or a line feed.
pub fn is_blank(byte: u8) -> bool
    ensures { result ≡ is_gap byte }
{
    matches!(byte, b' ' | b'\t' | b'\r' | b'\n')
}

fn is_word_byte(byte: u8) -> bool
    ensures { result ≡ goes_on_word byte }
{
    byte.is_ascii_alphanumeric() || byte == b'_'
}

fn is_in_line(byte: u8) -> bool
    ensures { result ≡ not (nat_eq byte 10) }
{
    byte != b'\n'
}

/// How many bytes of a line are at the front.
fn line_length(bytes: &[u8]) -> usize
    ensures count { result ≡ prefix_len (λ c. not (nat_eq c 10)) bytes.now }
    ensures within { result ≤ length bytes.now }
{
    bytes.iter().take_while(|byte| is_in_line(**byte)).count()
}

/// How many bytes at the front may continue a word.
fn word_length(bytes: &[u8]) -> usize
    ensures count { result ≡ prefix_len goes_on_word bytes.now }
    ensures within { result ≤ length bytes.now }
{
    bytes.iter().take_while(|byte| is_word_byte(**byte)).count()
}

/// How many digits are at the front.
fn digits_length(bytes: &[u8]) -> usize
    ensures count { result ≡ prefix_len is_ascii_digit bytes.now }
    ensures within { result ≤ length bytes.now }
{
    bytes
        .iter()
        .take_while(|byte| byte.is_ascii_digit())
        .count()
}

/// The first byte of a text and `more` after it.
pub fn front(text: &[u8], more: usize) -> &[u8]
    requires { more < length text.now }
    ensures { result.now ≡ take (suc more) text.now }
{
    &text[..more + 1]
}

#[tactic(auto, using(crate::proofs::Flat::word_flat))]
fn word(first: u8, following: &[u8], text: &[u8]) -> Piece
    requires { text.now ≡ first ∷ following.now }
    ensures piece { found text.now result ≡ word_piece first following.now }
    ensures front { IsFront text.now result }
    ensures within { more_of (found text.now result) ≤ length following.now }
    ensures flat { is_flat (take (more_of (found text.now result)) following.now) ≡ true }
{
    let more = word_length(following);
    if more >= LONGEST_WORD {
        return Piece::Bad;
    }
    Piece::Word { following: more }
}

#[tactic(auto, using(crate::proofs::Flat::number_flat))]
fn number(first: u8, following: &[u8], text: &[u8]) -> Piece
    requires { text.now ≡ first ∷ following.now }
    ensures piece { found text.now result ≡ number_piece first following.now }
    ensures front { IsFront text.now result }
    ensures within { more_of (found text.now result) ≤ length following.now }
    ensures flat { is_flat (take (more_of (found text.now result)) following.now) ≡ true }
{
    let more = digits_length(following);
    if first == b'0' && more > 0 {
        return Piece::Bad;
    }
    match value(front(text, more)) {
        Some(value) => Piece::Number {
            value,
            following: more,
        },
        None => Piece::Bad,
    }
}

/// The number that decimal digits spell, where it has 32 bits.
fn value(digits: &[u8]) -> Option<u32>
    ensures { MatchOption result (4294967295 < number_of digits.now) (λ n. n ≡ number_of digits.now) }
{
    let mut value = 0u32;
    for digit in digits {
        let next = 10 * u64::from(value) + u64::from(digit.saturating_sub(b'0'));
        if next > u64::from(u32::MAX) {
            return None;
        }
        value = next as u32;
    }
    Some(value)
}

#[tactic(auto, unfolding(layer_ast::specs::Cut::symbol_at, layer_words::specs::Spelling::symbols))]
fn symbol(first: u8, following: &[u8]) -> Piece
    ensures piece { (text : List ℕ) → found text result ≡ symbol_piece (first ∷ following.now) }
    ensures front { (text : List ℕ) → IsFront text result }
    ensures within { (text : List ℕ) → more_of (found text result) ≤ length following.now }
    ensures flat { (text : List ℕ) → is_flat (take (more_of (found text result)) following.now) ≡ true }
{
    let doubled = following.starts_with(b"=");
    match first {
        b'=' if doubled => symbol_of(Sign::Equal, 1),
        b'!' if doubled => symbol_of(Sign::NotEqual, 1),
        b'<' if doubled => symbol_of(Sign::LessEqual, 1),
        b'>' if doubled => symbol_of(Sign::GreaterEqual, 1),
        b'{' => symbol_of(Sign::LeftBrace, 0),
        b'}' => symbol_of(Sign::RightBrace, 0),
        b'(' => symbol_of(Sign::LeftParen, 0),
        b')' => symbol_of(Sign::RightParen, 0),
        b'[' => symbol_of(Sign::LeftBracket, 0),
        b']' => symbol_of(Sign::RightBracket, 0),
        b',' => symbol_of(Sign::Comma, 0),
        b';' => symbol_of(Sign::Semicolon, 0),
        b':' => symbol_of(Sign::Colon, 0),
        b'.' => symbol_of(Sign::Dot, 0),
        b'=' => symbol_of(Sign::Assign, 0),
        b'<' => symbol_of(Sign::Less, 0),
        b'>' => symbol_of(Sign::Greater, 0),
        b'+' => symbol_of(Sign::Plus, 0),
        b'-' => symbol_of(Sign::Minus, 0),
        b'*' => symbol_of(Sign::Star, 0),
        b'&' => symbol_of(Sign::Ampersand, 0),
        b'|' => symbol_of(Sign::Bar, 0),
        b'^' => symbol_of(Sign::Caret, 0),
        _ => Piece::Bad,
    }
}

fn symbol_of(sign: Sign, following: usize) -> Piece
    ensures { result ≡ Piece.Symbol sign following }
{
    Piece::Symbol { sign, following }
}
