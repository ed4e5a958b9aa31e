//! Readers of single tokens, and what every reader says.
ghost use Rattle.std.specs.Prelude.{◌≡◌, ◌++◌, ◌∷◌, [], OnOk, suc};
ghost use Rattle.layer_ast.specs.Print.{size as size_token};
ghost use Rattle.layer_ast.specs.Printed.{plain, plain_numeral, name as name_token, kind as kind_token};
ghost use Rattle.layer_words.specs.Signs.{operator_sign};
ghost use Rattle.layer_words.specs.Signs.{sort_sign};
ghost use Rattle.layer_ast.specs.Printed.{ending_sign};
ghost use Rattle.layer_ast.specs.View.{size_tree};
ghost use Rattle.grammar_laws.specs.Machine.{is_sign as has_sign, a_name, a_kind, an_operator, a_number, a_size};
ghost use Rattle.grammar_laws.specs.Machine.{a_sort, an_ending};
ghost use Rattle.file_parse.specs.Reading.{ParsesOne, ParsesSign, ParsesOpening, SeesSign, EntersBracket, IsPlain};
ghost use Rattle.file_parse.specs.Reading.{IsOpening, IsClosing};
ghost use Rattle.file_parse.specs.declared.readers.Fault.TheVariants.{Memory};

use layer_ast::{Ending, Lexed, Name, Size, Token};
use layer_words::{Kind, Operator, Sign, Sort};
use std::alloc::{AllocError, AllocFailed};

/// Why a reader gave up: with n tokens left a file goes on otherwise, or there was no memory.
#[derive(Clone, Copy, PartialEq, Eq, Debug)]
pub enum Fault {
    Refused(usize),
    Memory,
}

/// What was read, as `?` gives it. The check knows no `?` at a name beside a reference. Values after it are let go by
/// a call before the reader leaves: where they are let go in place, each exit costs the check what all their forms
/// cost.
macro_rules! read {
    ($result:expr) => {
        match $result {
            Ok(read) => read,
            Err(fault) => return Err(fault),
        }
    };
    ($result:expr, $($held:ident),+) => {
        match $result {
            Ok(read) => read,
            Err(fault) => {
                $(drop($held);)+
                return Err(fault);
            }
        }
    };
}

pub(crate) use read;

impl From<AllocError> for Fault {
    ghost from_gives = { λ _ e. e ≡ Memory };

    fn from(_error: AllocError) -> Fault {
        Fault::Memory
    }
}

impl<T: Drop> From<AllocFailed<T>> for Fault {
    ghost from_gives = { λ _ e. e ≡ Memory };

    fn from(_error: AllocFailed<T>) -> Fault {
        Fault::Memory
    }
}

/// Whether a token is this sign.
pub fn is_sign(token: &Token, want: Sign) -> bool
    ensures { result ≡ has_sign want token.now }
{
    match token {
        Token::Sign(sign) => *sign == want,
        _ => false,
    }
}

/// Reads a sign that is no bracket.
pub fn sign(want: Sign, tokens: &[Lexed]) -> Result<&[Lexed], Fault>
    requires { IsPlain want }
    ensures { ParsesSign (λ room. room) want tokens.now result }
{
    let Some((first, rest)) = tokens.split_first() else {
        return Err(Fault::Refused(0));
    };
    if is_sign(&first.token, want) {
        Ok(rest)
    } else {
        Err(Fault::Refused(tokens.len()))
    }
}

/// Reads a closing bracket.
pub fn close(want: Sign, tokens: &[Lexed]) -> Result<&[Lexed], Fault>
    requires { IsClosing want }
    ensures { ParsesSign suc want tokens.now result }
{
    let Some((first, rest)) = tokens.split_first() else {
        return Err(Fault::Refused(0));
    };
    if is_sign(&first.token, want) {
        Ok(rest)
    } else {
        Err(Fault::Refused(tokens.len()))
    }
}

/// Reads an opening bracket where there is room for one more. The result has the room inside it.
pub fn open(room: u32, want: Sign, tokens: &[Lexed]) -> Result<(u32, &[Lexed]), Fault>
    requires { IsOpening want }
    ensures { ParsesOpening want room tokens.now result }
{
    let Some((first, rest)) = tokens.split_first() else {
        return Err(Fault::Refused(0));
    };
    if room > 0 && is_sign(&first.token, want) {
        Ok((room - 1, rest))
    } else {
        Err(Fault::Refused(tokens.len()))
    }
}

/// The tokens after a sign that begins an optional part of a file, if that sign is next.
pub fn past(want: Sign, tokens: &[Lexed]) -> Option<&[Lexed]>
    ensures { SeesSign want tokens.now result }
{
    let (first, rest) = tokens.split_first()?;
    if is_sign(&first.token, want) {
        Some(rest)
    } else {
        None
    }
}

/// The room inside an opening bracket that stands before these tokens.
pub fn room_inside(room: u32, tokens: &[Lexed]) -> Result<u32, Fault>
    ensures { EntersBracket room tokens.now result }
{
    if room == 0 {
        return Err(Fault::Refused(tokens.len() + 1));
    }
    Ok(room - 1)
}

/// Reads a name.
#[tactic(auto, unfolding(layer_ast::specs::Spells::Fits))]
pub fn name(tokens: &[Lexed]) -> Result<(Name, &[Lexed]), Fault>
    ensures { ParsesOne name_token a_name tokens.now result }
{
    let Some((first, rest)) = tokens.split_first() else {
        return Err(Fault::Refused(0));
    };
    match first.token {
        Token::Name(word) => Ok((Name { at: first.at, word }, rest)),
        _ => Err(Fault::Refused(tokens.len())),
    }
}

/// Reads a kind.
#[tactic(auto, unfolding(layer_ast::specs::Spells::Fits))]
pub fn kind(tokens: &[Lexed]) -> Result<(Kind, &[Lexed]), Fault>
    ensures { ParsesOne kind_token a_kind tokens.now result }
{
    let Some((first, rest)) = tokens.split_first() else {
        return Err(Fault::Refused(0));
    };
    match first.token {
        Token::Kind(kind) => Ok((kind, rest)),
        _ => Err(Fault::Refused(tokens.len())),
    }
}

/// Reads an operator.
#[tactic(auto, unfolding(layer_ast::specs::Spells::Fits))]
pub fn operator(tokens: &[Lexed]) -> Result<(Operator, &[Lexed]), Fault>
    ensures { ParsesOne (λ o. plain (operator_sign o)) an_operator tokens.now result }
{
    let Some((first, rest)) = tokens.split_first() else {
        return Err(Fault::Refused(0));
    };
    match first.token {
        Token::Sign(Sign::Plus) => Ok((Operator::Add, rest)),
        Token::Sign(Sign::Minus) => Ok((Operator::Subtract, rest)),
        Token::Sign(Sign::Star) => Ok((Operator::Multiply, rest)),
        Token::Sign(Sign::Equal) => Ok((Operator::Equal, rest)),
        Token::Sign(Sign::NotEqual) => Ok((Operator::NotEqual, rest)),
        Token::Sign(Sign::Less) => Ok((Operator::Less, rest)),
        Token::Sign(Sign::LessEqual) => Ok((Operator::LessOrEqual, rest)),
        Token::Sign(Sign::Greater) => Ok((Operator::Greater, rest)),
        Token::Sign(Sign::GreaterEqual) => Ok((Operator::GreaterOrEqual, rest)),
        Token::Sign(Sign::And) => Ok((Operator::And, rest)),
        Token::Sign(Sign::Or) => Ok((Operator::Or, rest)),
        Token::Sign(Sign::Ampersand) => Ok((Operator::BitAnd, rest)),
        Token::Sign(Sign::Bar) => Ok((Operator::BitOr, rest)),
        Token::Sign(Sign::Caret) => Ok((Operator::BitXor, rest)),
        _ => Err(Fault::Refused(tokens.len())),
    }
}

/// Reads a number.
#[tactic(auto, unfolding(layer_ast::specs::Spells::Fits))]
pub fn number(tokens: &[Lexed]) -> Result<(u32, &[Lexed]), Fault>
    ensures { ParsesOne plain_numeral a_number tokens.now result }
{
    let Some((first, rest)) = tokens.split_first() else {
        return Err(Fault::Refused(0));
    };
    match first.token {
        Token::Number(value) => Ok((value, rest)),
        _ => Err(Fault::Refused(tokens.len())),
    }
}

/// Reads a size.
#[tactic(auto, unfolding(layer_ast::specs::Spells::Fits))]
pub fn size(tokens: &[Lexed]) -> Result<(Size, &[Lexed]), Fault>
    ensures { ParsesOne (λ s. size_token (size_tree s)) a_size tokens.now result }
{
    let Some((first, rest)) = tokens.split_first() else {
        return Err(Fault::Refused(0));
    };
    let at = first.at;
    match first.token {
        Token::Number(value) => Ok((Size::Number { at, value }, rest)),
        Token::Name(word) => {
            let name = Name { at, word };
            Ok((Size::Named { name }, rest))
        }
        _ => Err(Fault::Refused(tokens.len())),
    }
}

/// Reads what an item of a row is.
#[tactic(auto, unfolding(layer_ast::specs::Spells::Fits))]
pub fn sort(tokens: &[Lexed]) -> Result<(Sort, &[Lexed]), Fault>
    ensures { ParsesOne (λ s. plain (sort_sign s)) a_sort tokens.now result }
{
    let Some((first, rest)) = tokens.split_first() else {
        return Err(Fault::Refused(0));
    };
    match first.token {
        Token::Sign(Sign::Int) => Ok((Sort::Int, rest)),
        Token::Sign(Sign::Msg) => Ok((Sort::Msg, rest)),
        Token::Sign(Sign::Part) => Ok((Sort::Part, rest)),
        _ => Err(Fault::Refused(tokens.len())),
    }
}

/// Reads whether the headers of the layers above follow a header.
#[tactic(auto, unfolding(layer_ast::specs::Spells::Fits))]
pub fn ending(tokens: &[Lexed]) -> Result<(Ending, &[Lexed]), Fault>
    ensures { ParsesOne (λ e. plain (ending_sign e)) an_ending tokens.now result }
{
    let Some((first, rest)) = tokens.split_first() else {
        return Err(Fault::Refused(0));
    };
    match first.token {
        Token::Sign(Sign::Passes) => Ok((Ending::Passes, rest)),
        Token::Sign(Sign::Ends) => Ok((Ending::Ends, rest)),
        _ => Err(Fault::Refused(tokens.len())),
    }
}

/// Adds an item to a list. The first gets room for itself alone, as many lists have no other; a long list that is full
/// gets four times its room, so that few of its items are moved often.
pub fn push_item<T: Drop>(all: &mut Vec<T>, item: T) -> Result<(), AllocError>
    ensures { OnOk result (all.new.items ≡ all.old.items ++ item ∷ []) }
{
    let len = all.len();
    if len == all.capacity() {
        if len == 0 {
            all.reserve_exact(1)?;
        } else {
            all.reserve(len.saturating_mul(3))?;
        }
    }
    all.push(item)?;
    Ok(())
}
