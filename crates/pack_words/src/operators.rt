//! Words and symbols of operators.

ghost use Rattle.std.specs.Prelude.{◌≡◌};
ghost use Rattle.pack_mean.specs.Named as named;
ghost use Rattle.pack_words.specs.Words.{by_word, operator_words};

use layer_words::Operator;

/// The operator of a word or symbol, by the table.
fn operator_by(word: &[u8]) -> Option<Operator>
    ensures { result ≡ by_word operator_words word.now }
{
    if word == b"+".as_slice() {
        Some(Operator::Add)
    } else if word == b"-".as_slice() {
        Some(Operator::Subtract)
    } else if word == b"*".as_slice() {
        Some(Operator::Multiply)
    } else if word == b"==".as_slice() {
        Some(Operator::Equal)
    } else if word == b"!=".as_slice() {
        Some(Operator::NotEqual)
    } else if word == b"<".as_slice() {
        Some(Operator::Less)
    } else if word == b"<=".as_slice() {
        Some(Operator::LessOrEqual)
    } else if word == b">".as_slice() {
        Some(Operator::Greater)
    } else if word == b">=".as_slice() {
        Some(Operator::GreaterOrEqual)
    } else if word == b"and".as_slice() {
        Some(Operator::And)
    } else if word == b"or".as_slice() {
        Some(Operator::Or)
    } else if word == b"&".as_slice() {
        Some(Operator::BitAnd)
    } else if word == b"|".as_slice() {
        Some(Operator::BitOr)
    } else if word == b"^".as_slice() {
        Some(Operator::BitXor)
    } else {
        None
    }
}

/// The operator of a word or symbol.
#[tactic(auto, using(crate::proofs::Signs::operators_are))]
pub fn operator_of(word: &[u8]) -> Option<Operator>
    ensures { result ≡ named.operator_named word.now }
{
    operator_by(word)
}
