//! Text as it is built up.
ghost use Rattle.std.specs.Prelude.{◌≡◌, ◌++◌, [], OnOk, codes};
ghost use Rattle.std.specs.Fmt.{decimal};
ghost use Rattle.chart_mean.specs.Escape.{escaped, escaped_byte};
ghost use Rattle.chart_mean.specs.Mark.{numbered};

use itoa::Buffer;
use std::alloc::{AllocError, Global};
use std::marker::Model;

/// Where a line begins and ends.
#[derive(Clone, Copy)]
pub(crate) struct Ends {
    pub x1: u64,
    pub y1: u64,
    pub x2: u64,
    pub y2: u64,
}

/// The bytes of a text, which contracts see as a list.
#[derive(Drop)]
pub(crate) struct Text {
    bytes: Vec<u8>,
}

impl Model for Text {
    ghost use Rattle.std.specs.Prelude.{ℕ, List};

    ghost Value = { List ℕ };

    ghost view = { λ t. t.bytes.items };
}

impl Text {
    /// An empty text, which takes no memory yet.
    pub(crate) fn new(alloc: Global) -> Text
        ensures { result ≡ [] }
    {
        Text {
            bytes: Vec::new(alloc),
        }
    }

    /// The bytes of the text.
    pub(crate) fn bytes(&self) -> &[u8]
        ensures { result.now ≡ self.now }
    {
        self.bytes.as_slice()
    }

    /// The bytes of the text, which itself is ended.
    pub(crate) fn into_bytes(self) -> Vec<u8>
        ensures { result.items ≡ self }
    {
        self.bytes
    }

    /// Appends these bytes as they are.
    pub(crate) fn put(&mut self, bytes: &[u8]) -> Result<(), AllocError>
        ensures { OnOk result (self.new ≡ self.old ++ bytes.now) }
    {
        self.bytes.extend_from_slice(bytes)
    }

    /// Appends a number in decimal.
    pub(crate) fn number(&mut self, number: u64) -> Result<(), AllocError>
        ensures { OnOk result (self.new ≡ self.old ++ decimal number) }
    {
        let mut buffer = Buffer::new();
        self.put(buffer.format(number).as_bytes())
    }

    /// Appends these bytes, and after them a number in decimal.
    pub(crate) fn put_number(&mut self, bytes: &[u8], number: u64) -> Result<(), AllocError>
        ensures { OnOk result (self.new ≡ self.old ++ (bytes.now ++ decimal number)) }
    {
        self.put(bytes)?;
        self.number(number)
    }

    /// Appends the beginning of an element, and the place where it stands.
    pub(crate) fn put_at(&mut self, opening: &[u8], x: u64, y: u64) -> Result<(), AllocError>
        ensures { OnOk result
            (self.new ≡ self.old ++ (opening.now ++ numbered (codes "x") x ++ numbered (codes "y") y)) }
    {
        self.put(opening)?;
        self.attribute(b"x", x)?;
        self.attribute(b"y", y)
    }

    /// Appends the element of a line that is drawn.
    pub(crate) fn put_line(
        &mut self,
        opening: &[u8],
        ends: Ends,
        closing: &[u8],
    ) -> Result<(), AllocError>
        ensures { OnOk result (self.new ≡ self.old ++ (opening.now
            ++ numbered (codes "x1") ends.x1 ++ numbered (codes "y1") ends.y1 ++ numbered (codes "x2") ends.x2 ++
            numbered (codes "y2") ends.y2
            ++ closing.now)) }
    {
        self.put(opening)?;
        self.attribute(b"x1", ends.x1)?;
        self.attribute(b"y1", ends.y1)?;
        self.attribute(b"x2", ends.x2)?;
        self.attribute(b"y2", ends.y2)?;
        self.put(closing)
    }

    /// Appends an attribute of a number.
    #[tactic(auto, unfolding(chart_mean::specs::Mark::numbered))]
    pub(crate) fn attribute(&mut self, name: &[u8], value: u64) -> Result<(), AllocError>
        ensures { OnOk result (self.new ≡ self.old ++ numbered name.now value) }
    {
        self.put(b" ")?;
        self.put(name)?;
        self.put(b"='")?;
        self.number(value)?;
        self.put(b"'")
    }

    /// Appends text of a report, escaped.
    #[tactic(auto, using(crate::proofs::Loops::escaped_more))]
    pub(crate) fn escaped(&mut self, text: &[u8]) -> Result<(), AllocError>
        ensures { OnOk result (self.new ≡ self.old ++ escaped text.now) }
    {
        for byte in text {
            self.escaped_byte(*byte)?;
        }
        Ok(())
    }

    /// Appends a byte as it is spelled in a picture.
    fn escaped_byte(&mut self, byte: u8) -> Result<(), AllocError>
        ensures { OnOk result (self.new ≡ self.old ++ escaped_byte byte) }
    {
        match byte {
            b'&' => self.put(b"&amp;"),
            b'<' => self.put(b"&lt;"),
            b'>' => self.put(b"&gt;"),
            b'"' => self.put(b"&quot;"),
            b' '..=b'~' => self.put(&[byte]),
            _ => self.put(b"&#65533;"),
        }
    }
}
