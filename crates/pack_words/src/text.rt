//! A line that is read from the front.

ghost use Rattle.std.specs.Prelude.{◌≡◌, ◌==◌, ◌≤◌, ◌++◌, not, length, take, bytes_eq, Some};
ghost use Rattle.std.specs.List.{position_or_len, prefix_len};
ghost use Rattle.std.specs.Fmt.{decimal};
ghost use Rattle.pack_mean.specs.Reader as reader;
ghost use Rattle.pack_mean.specs.Reader.{is_name_byte as goes_on_name};
ghost use Rattle.pack_words.specs.Names.{words_in};
ghost use Rattle.pack_words.specs.Reading.{Passes, Takes, left};

use crate::error::LineError;
use crate::name::Name;
use itoa::Buffer;

/// What is left of a line.
#[derive(Drop)]
pub struct Text<'a> {
    rest: &'a [u8],
}

/// Whether a byte goes on a name.
fn is_name_byte(byte: u8) -> bool
    ensures { result ≡ goes_on_name byte }
{
    byte.is_ascii_alphanumeric() || byte == b'_' || byte == b'.'
}

/// How many bytes of a name are at the front.
fn name_bytes(bytes: &[u8]) -> usize
    ensures count { result ≡ prefix_len goes_on_name bytes.now }
    ensures within { result ≤ length bytes.now }
{
    bytes.iter().take_while(|byte| is_name_byte(**byte)).count()
}

/// How many bytes of a name are at the front.
#[tactic(auto, using(crate::proofs::Runs::name_run))]
fn name_length(bytes: &[u8]) -> usize
    ensures count { result ≡ position_or_len (λ byte. not (goes_on_name byte)) bytes.now }
    ensures within { result ≤ length bytes.now }
{
    name_bytes(bytes)
}

/// How many bytes are before the first space.
fn word_bytes(bytes: &[u8]) -> usize
    ensures count { result ≡ prefix_len (λ byte. not (byte == 32)) bytes.now }
    ensures within { result ≤ length bytes.now }
{
    bytes.iter().take_while(|byte| **byte != b' ').count()
}

/// How many bytes are before the first space.
#[tactic(auto, using(crate::proofs::Runs::word_run))]
fn word_length(bytes: &[u8]) -> usize
    ensures count { result ≡ position_or_len (λ byte. not (not (byte == 32))) bytes.now }
    ensures within { result ≤ length bytes.now }
{
    word_bytes(bytes)
}

impl<'a> Text<'a> {
    /// All of a line.
    pub fn new(line: &'a [u8]) -> Text<'a>
        ensures { left result ≡ line.now }
    {
        Text { rest: line }
    }

    /// Whether these bytes come next.
    #[tactic(auto, using(crate::proofs::Fronts::front_equal))]
    pub fn is_next(&self, wanted: &[u8]) -> bool
        ensures { result ≡ bytes_eq (take (length wanted.now) (left self.now)) wanted.now }
    {
        self.rest.starts_with(wanted)
    }

    /// These bytes.
    pub fn the(&mut self, wanted: &[u8]) -> Result<(), LineError>
        ensures { Takes (reader.the_text wanted.now (left self.old)) result (left self.new) }
    {
        if !self.is_next(wanted) {
            return Err(LineError::Form);
        }
        self.rest = &self.rest[wanted.len()..];
        Ok(())
    }

    /// Whether this byte comes next; then it is taken.
    pub fn passes(&mut self, byte: u8) -> bool
        ensures { Passes byte (left self.old) result (left self.new) }
    {
        let [first, rest @ ..] = self.rest else {
            return false;
        };
        if *first != byte {
            return false;
        }
        self.rest = rest;
        true
    }

    /// The digits of this number.
    pub fn the_number(&mut self, number: u64) -> Result<(), LineError>
        ensures { Takes (reader.the_text (decimal number) (left self.old)) result (left self.new) }
    {
        let mut buffer = Buffer::new();
        self.the(buffer.format(number).as_bytes())
    }

    /// These bytes, and the digits of this number after them.
    #[tactic(auto, using(crate::proofs::Fronts::both_texts, crate::proofs::Fronts::not_front))]
    pub fn the_numbered(&mut self, front: &[u8], number: u64) -> Result<(), LineError>
        ensures { Takes (reader.the_text (front.now ++ decimal number) (left self.old)) result (left self.new) }
    {
        self.the(front)?;
        self.the_number(number)
    }

    /// The longest name that comes next, which may have no bytes.
    pub fn name(&mut self) -> Name<'a>
        ensures { reader.a_name (left self.old) ≡ Some (words_in result, left self.new) }
    {
        let (name, rest) = self.rest.split_at(name_length(self.rest));
        self.rest = rest;
        Name::of(name)
    }

    /// What comes before the next space.
    pub fn word(&mut self) -> &'a [u8]
        ensures { reader.a_word (left self.old) ≡ Some (result.now, left self.new) }
    {
        let (word, rest) = self.rest.split_at(word_length(self.rest));
        self.rest = rest;
        word
    }

    /// Whether nothing is left.
    pub fn is_empty(&self) -> bool
        ensures { result ≡ (length (left self.now) == 0) }
    {
        self.rest.is_empty()
    }
}
