//! Events and their directions, and their words.
#![tactic(auto, unfolding(crate::specs::Spelling::tables))]

ghost use Rattle.std.specs.Prelude.{◌≡◌};
ghost use Rattle.layer_words.specs.Signs.{direction_sign, directions};
ghost use Rattle.layer_words.specs.Spelling.{beside, kinds, kind_word, sign_text};

/// The way that an event goes through the layers.
#[derive(Clone, Copy, PartialEq, Eq, Debug)]
pub enum Dir {
    Up,
    Down,
}

impl Dir {
    /// Its word.
    pub fn word(self) -> &'static str
        ensures { result.now ≡ sign_text (direction_sign self) }
    {
        match self {
            Dir::Up => "up",
            Dir::Down => "down",
        }
    }

    /// The direction of a word.
    pub fn of_word(word: &[u8]) -> Option<Dir>
        ensures { result ≡ beside directions word.now }
    {
        if b"up".as_slice() == word {
            Some(Dir::Up)
        } else if b"down".as_slice() == word {
            Some(Dir::Down)
        } else {
            None
        }
    }
}

/// What an event is.
#[derive(Clone, Copy, PartialEq, Eq, Debug)]
pub enum Kind {
    Cast,
    Send,
    Timer,
    Suspect,
    Stable,
    Ack,
    Elect,
    Block,
    BlockOk,
    Flushed,
    View,
    Leave,
}

impl Kind {
    /// Its word.
    pub fn word(self) -> &'static str
        ensures { result.now ≡ kind_word self }
    {
        match self {
            Kind::Cast => "Cast",
            Kind::Send => "Send",
            Kind::Timer => "Timer",
            Kind::Suspect => "Suspect",
            Kind::Stable => "Stable",
            Kind::Ack => "Ack",
            Kind::Elect => "Elect",
            Kind::Block => "Block",
            Kind::BlockOk => "BlockOk",
            Kind::Flushed => "Flushed",
            Kind::View => "View",
            Kind::Leave => "Leave",
        }
    }

    /// The kind of event of a word.
    pub fn of_word(word: &[u8]) -> Option<Kind>
        ensures { result ≡ beside kinds word.now }
    {
        if b"Cast".as_slice() == word {
            Some(Kind::Cast)
        } else if b"Send".as_slice() == word {
            Some(Kind::Send)
        } else if b"Timer".as_slice() == word {
            Some(Kind::Timer)
        } else if b"Suspect".as_slice() == word {
            Some(Kind::Suspect)
        } else if b"Stable".as_slice() == word {
            Some(Kind::Stable)
        } else if b"Ack".as_slice() == word {
            Some(Kind::Ack)
        } else if b"Elect".as_slice() == word {
            Some(Kind::Elect)
        } else if b"Block".as_slice() == word {
            Some(Kind::Block)
        } else if b"BlockOk".as_slice() == word {
            Some(Kind::BlockOk)
        } else if b"Flushed".as_slice() == word {
            Some(Kind::Flushed)
        } else if b"View".as_slice() == word {
            Some(Kind::View)
        } else if b"Leave".as_slice() == word {
            Some(Kind::Leave)
        } else {
            None
        }
    }
}
