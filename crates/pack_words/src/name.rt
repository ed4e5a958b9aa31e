//! Names: words with points between.

ghost use Rattle.std.specs.Prelude.{◌≡◌, ◌==◌};
ghost use Rattle.std.specs.List.{slice_split};
ghost use Rattle.pack_words.specs.Names.{words_in};

use script_text::cut;

/// The words of a name. Nothing has a name of more than three words.
#[derive(Clone, Copy)]
pub enum Name<'a> {
    One(&'a [u8]),
    Two(&'a [u8], &'a [u8]),
    Three(&'a [u8], &'a [u8], &'a [u8]),
    /// The first four words, and what stands after them if anything does.
    More(&'a [u8], &'a [u8], &'a [u8], &'a [u8], Option<&'a [u8]>),
}

impl<'a> Name<'a> {
    /// The words of a text.
    pub(crate) fn of(text: &'a [u8]) -> Name<'a>
        ensures { words_in result ≡ slice_split (λ byte. byte == 46) text.now }
    {
        let (first, following) = cut(b'.', text);
        let Some(following) = following else {
            return Name::One(first);
        };
        let (second, following) = cut(b'.', following);
        let Some(following) = following else {
            return Name::Two(first, second);
        };
        let (third, following) = cut(b'.', following);
        let Some(following) = following else {
            return Name::Three(first, second, third);
        };
        let (fourth, following) = cut(b'.', following);
        Name::More(first, second, third, fourth, following)
    }
}
