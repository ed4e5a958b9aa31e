//! Words that are found without a search.

ghost use Rattle.std.specs.Prelude.{◌≡◌, ◌<◌, ◌-◌, ◌++◌, ◌∷◌, [], IfOk, OnOk, OnErr, bytes_eq, length, take, vec_len};
ghost use Rattle.std.specs.Prelude.{vec_capacity};
ghost use Rattle.std.specs.List.{position};
ghost use Rattle.indexmap.specs.IndexMap.{get};
ghost use Rattle.file_scope.specs.Words.{Forgets, HasTable, IsSameTable, IsTable, NotesFirst, is_at, place_of};

use indexmap::IndexMap;
use layer_words::Word;
use std::alloc::{AllocError, Global};
use std::hash::{Hash, Hasher};
use std::marker::Model;

/// A word as the key of a table: its bytes, without what stands after them in memory.
#[derive(Drop)]
struct Spelling(Word);

impl Model for Spelling {
    ghost use Rattle.std.specs.Prelude.{List, ℕ};

    ghost Value = { List ℕ };

    ghost view = { λ s. s.0 };
}

impl PartialEq for Spelling {
    ghost use Rattle.std.specs.Cmp.Lexicographic.{pointwise, nat_list_eq_equiv};
    ghost use Rattle.std.specs.Cmp.{partial_equiv_from_equiv};
    ghost use Rattle.std.specs.Prelude.{nat_eq};

    ghost eq = { pointwise nat_eq };

    ghost laws = { partial_equiv_from_equiv nat_list_eq_equiv };

    fn eq(&self, other: &Self) -> bool {
        self.0.bytes() == other.0.bytes()
    }
}

impl Eq for Spelling {
    ghost use Rattle.std.specs.Cmp.Lexicographic.{nat_list_eq_equiv};

    ghost laws = { nat_list_eq_equiv };
}

impl Hash for Spelling {
    ghost use Rattle.std.specs.Prelude.{◌∷◌, []};
    ghost use Rattle.std.specs.Cmp.Rules.{hashing};
    ghost use Rattle.std.proofs.Common.{rules};

    ghost hash_input = { λ s. s ∷ [] };

    ghost respects_eq = { Prim.search (hashing, rules) };

    fn hash<H: Hasher>(&self, state: &mut H) {
        state.write(self.0.bytes());
    }
}

/// How many words are looked through one by one; more have a table.
const FEW: usize = 16;

/// For how many words there is room with the first.
const AT_FIRST: usize = 8;

/// Words in order, and once they are more than a few a table of where each is first.
#[derive(Drop)]
pub struct Words {
    words: Vec<Word>,
    first: Option<IndexMap<Spelling, usize>>,
}

impl Model for Words {
    ghost use Rattle.std.specs.Prelude.{List, ℕ};
    ghost use Rattle.file_scope.specs.Words.{HasTable};

    ghost Value = { List (List ℕ) };

    ghost view = { λ w. w.words.items };

    ghost invariant = { λ w. HasTable w.first w.words.items };
}

impl Words {
    /// No words.
    pub fn new(alloc: Global) -> Words
        ensures { result ≡ [] }
    {
        Words {
            words: Vec::new(alloc),
            first: None,
        }
    }

    /// All of them, in order.
    pub fn list(&self) -> &[Word]
        ensures { result.now ≡ self.now }
    {
        self.words.as_slice()
    }

    /// Where a word is first.
    pub fn position(&self, word: &Word) -> Option<usize>
        ensures { result ≡ place_of word.now self.now }
    {
        match &self.first {
            Some(first) => first.get(&Spelling(*word)).copied(),
            None => place_among(self.words.as_slice(), word),
        }
    }

    /// Adds a word at the end, where there is memory.
    #[tactic(auto, using(crate::proofs::Tables::told))]
    pub fn push(&mut self, word: &Word) -> Result<(), AllocError>
        ensures pushed { OnOk result (self.new ≡ self.old ++ word.now ∷ []) }
        ensures failed { OnErr result (self.new ≡ self.old) }
    {
        make_room(&mut self.words)?;
        note_next(&mut self.first, &self.words, word)?;
        self.words.push(*word)?;
        Ok(())
    }

    /// Keeps the first n words.
    #[tactic(auto, using(crate::proofs::Tables::fewer))]
    pub fn truncate(&mut self, count: usize)
        ensures { self.new ≡ take count self.old }
    {
        while self.words.len() > count {
            self.drop_last();
        }
    }

    /// Takes the last word away, where there is one.
    #[tactic(auto, using(crate::proofs::Tables::told, crate::proofs::Tables::all_but_last))]
    fn drop_last(&mut self)
        ensures { self.new ≡ take (length self.old - 1) self.old }
    {
        if let Some(word) = self.words.pop() {
            forget_last(&mut self.first, &self.words, &word);
        }
    }
}

/// Makes room for one word more; with the first there is room for several.
fn make_room(words: &mut Vec<Word>) -> Result<(), AllocError>
    ensures items { words.new.items ≡ words.old.items }
    ensures room { OnOk result (vec_len words.new < vec_capacity words.new) }
{
    if words.is_empty() {
        return words.reserve(AT_FIRST);
    }
    words.reserve(1)
}

/// Where a word is first among others.
#[tactic(auto, using(crate::proofs::Tables::place_is))]
fn place_among(words: &[Word], word: &Word) -> Option<usize>
    ensures { result ≡ place_of word.now words.now }
{
    position_among(words, word)
}

fn position_among(words: &[Word], word: &Word) -> Option<usize>
    ensures { result ≡ position (λ w. bytes_eq w word.now) words.now }
{
    words.iter().position(|w| w.bytes() == word.bytes())
}

/// A table of where each of these words is first.
fn table_of(alloc: Global, words: &[Word]) -> Result<IndexMap<Spelling, usize>, AllocError>
    ensures { IfOk result (λ table. IsTable table words.now) }
{
    let mut table = IndexMap::new(alloc);
    for place in 0..words.len() {
        note_first(&mut table, &words[place], place)?;
    }
    Ok(table)
}

/// Notes where a word that is to come after these is first, if these have a table or are to have one.
fn note_next(
    first: &mut Option<IndexMap<Spelling, usize>>,
    words: &Vec<Word>,
    word: &Word,
) -> Result<(), AllocError>
    requires { HasTable first.now words.now.items }
    ensures noted { OnOk result (HasTable first.new (words.now.items ++ word.now ∷ [])) }
    ensures failed { OnErr result (HasTable first.new words.now.items) }
{
    match first {
        Some(table) => note_first(table, word, words.len()),
        None => {
            if words.len() < FEW {
                return Ok(());
            }
            let mut table = table_of(*words.allocator(), words.as_slice())?;
            note_first(&mut table, word, words.len())?;
            *first = Some(table);
            Ok(())
        }
    }
}

/// Notes that a word is at a place, unless it has one.
#[tactic(auto, using(crate::proofs::Tables::noted_before, crate::proofs::Tables::noted_now))]
fn note_first(
    first: &mut IndexMap<Spelling, usize>,
    word: &Word,
    place: usize,
) -> Result<(), AllocError>
    ensures noted { OnOk result (NotesFirst first.old word.now place first.new) }
    ensures failed { OnErr result (IsSameTable first.old first.new) }
{
    if !first.contains_key(&Spelling(*word)) {
        first.insert(Spelling(*word), place)?;
    }
    Ok(())
}

/// Forgets where a word that stood after these is first, if these have a table.
fn forget_last(first: &mut Option<IndexMap<Spelling, usize>>, words: &Vec<Word>, word: &Word)
    requires { HasTable first.now (words.now.items ++ word.now ∷ []) }
    ensures { HasTable first.new words.now.items }
{
    if let Some(table) = first {
        forget_at(table, word, words.len());
    }
}

/// Whether a word is noted to be at a place.
fn is_noted_at(first: &IndexMap<Spelling, usize>, word: &Word, place: usize) -> bool
    ensures { result ≡ is_at place (get bytes_eq first.now word.now) }
{
    match first.get(&Spelling(*word)) {
        None => false,
        Some(noted) => *noted == place,
    }
}

/// Forgets that a word is at a place, where that is noted.
#[tactic(auto, using(crate::proofs::Tables::forgot_none, crate::proofs::Tables::forgot_one))]
fn forget_at(first: &mut IndexMap<Spelling, usize>, word: &Word, place: usize)
    ensures { Forgets first.old word.now place first.new }
{
    if is_noted_at(first, word, place) {
        first.swap_remove(&Spelling(*word));
    }
}
