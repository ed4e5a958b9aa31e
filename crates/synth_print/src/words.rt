//! Symbols and words of operators and functions, and what packets of a kind are called.
#![tactic(auto, unfolding(layer_words::specs::Spelling::tables))]

ghost use Rattle.std.specs.Prelude.{◌≡◌, ◌++◌, codes};
ghost use Rattle.bypass_mean.specs.Lines.{packet_word};
ghost use Rattle.layer_words.specs.Spelling.{sign_text};
ghost use Rattle.layer_words.specs.Signs.{function_sign, operator_sign};

use layer_words::{Function, Kind, Operator};

/// What stands between the two numbers of an operator.
pub(crate) fn operator_between(operator: Operator) -> &'static [u8]
    ensures { result.now ≡ codes " " ++ sign_text (operator_sign operator) ++ codes " " }
{
    match operator {
        Operator::Add => b" + ",
        Operator::Subtract => b" - ",
        Operator::Multiply => b" * ",
        Operator::Equal => b" == ",
        Operator::NotEqual => b" != ",
        Operator::Less => b" < ",
        Operator::LessOrEqual => b" <= ",
        Operator::Greater => b" > ",
        Operator::GreaterOrEqual => b" >= ",
        Operator::And => b" and ",
        Operator::Or => b" or ",
        Operator::BitAnd => b" & ",
        Operator::BitOr => b" | ",
        Operator::BitXor => b" ^ ",
    }
}

/// What opens the number of a function.
pub(crate) fn function_opening(function: Function) -> &'static [u8]
    ensures { result.now ≡ sign_text (function_sign function) ++ codes "(" }
{
    match function {
        Function::Not => b"not(",
        Function::Bit => b"bit(",
        Function::Count => b"count(",
        Function::Lowest => b"lowest(",
    }
}

/// The word of the packets of a kind.
pub(crate) fn packet_text(kind: Kind) -> &'static [u8]
    ensures { result.now ≡ packet_word kind }
{
    match kind {
        Kind::Cast => b"cast",
        _ => b"send",
    }
}
