ghost use Rattle.std.specs.Prelude.{◌↔◌, IsTrue};
ghost use Rattle.handoff_data.specs.Line.{IsLine};

use std::marker::Model;

/// Whether these bytes are a line: whether none of them is a line feed.
pub fn is_line(bytes: &[u8]) -> bool
    ensures { IsTrue result ↔ IsLine bytes.now }
{
    bytes.iter().all(|byte| *byte != b'\n')
}

/// A line of text: bytes without a line feed (0x0A). Contracts see it as the list of its bytes.
#[derive(Drop)]
pub struct Line {
    bytes: Vec<u8>,
}

impl Model for Line {
    ghost use Rattle.std.specs.Prelude.{ℕ, List};
    ghost use Rattle.handoff_data.specs.Line.{IsLine};

    ghost Value = { List ℕ };

    ghost view = { λ l. l.bytes.items };

    ghost invariant = { λ l. IsLine l.bytes.items };
}

impl Line {
    ghost use Rattle.std.specs.Prelude.{◌≡◌, ◌↔◌, IsTrue, length};
    ghost use Rattle.handoff_data.specs.Line.{IsLine};

    /// A line of these bytes. No memory is taken.
    pub fn new(bytes: Vec<u8>) -> Line
        requires { IsLine bytes.items }
        ensures { result ≡ bytes.items }
    {
        Line { bytes }
    }

    /// The bytes of the line, for which no memory is taken.
    pub fn into_bytes(self) -> Vec<u8>
        ensures bytes { result.items ≡ self }
        ensures line { IsLine result.items }
    {
        let Line { bytes } = self;
        bytes
    }

    /// The bytes of the line.
    pub fn as_slice(&self) -> &[u8]
        ensures bytes { result.now ≡ self.now }
        ensures line { IsLine result.now }
    {
        self.bytes.as_slice()
    }

    /// How many bytes the line has.
    pub fn len(&self) -> usize
        ensures { result ≡ length self.now }
    {
        self.bytes.len()
    }

    /// Whether the line has no byte.
    pub fn is_empty(&self) -> bool
        ensures { IsTrue result ↔ (length self.now ≡ 0) }
    {
        self.bytes.is_empty()
    }

    /// Whether both lines have the same bytes.
    pub fn equals(&self, other: &Line) -> bool
        ensures { IsTrue result ↔ (self.now ≡ other.now) }
    {
        self.bytes.as_slice() == other.bytes.as_slice()
    }
}
