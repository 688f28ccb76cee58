ghost use Rattle.std.specs.Prelude.{◌≡◌, [], ◌++◌, IfOk, OnOk, OnErr};

use crate::memory::Memory;
use std::alloc::Global;
use std::marker::Model;

/// A growing text of UTF-8. Contracts see it as its bytes.
#[derive(Debug, Drop)]
pub struct Text {
    string: String,
}

impl Model for Text {
    ghost use Rattle.std.specs.Prelude.{List, ℕ, string_bytes};

    ghost Value = { List ℕ };

    ghost view = { λ text. string_bytes text.string };
}

impl Text {
    /// The empty text. It takes no memory.
    pub fn new(alloc: Global) -> Text
        ensures { result ≡ [] }
    {
        Text {
            string: String::new(alloc),
        }
    }

    /// The text as it stands.
    pub fn as_str(&self) -> &str
        ensures { result.now ≡ self.now }
    {
        self.string.as_str()
    }

    /// Adds the piece at the end. Where memory is wanting, the text is as it was.
    pub fn push_str(&mut self, piece: &str) -> Result<(), Memory>
        ensures added { OnOk result (self.new ≡ self.old ++ piece.now) }
        ensures kept { OnErr result (self.new ≡ self.old) }
    {
        self.string.push_str(piece)?;
        Ok(())
    }

    /// A text with the same bytes.
    pub fn copy(&self, alloc: Global) -> Result<Text, Memory>
        ensures { IfOk result (λ text. text ≡ self.now) }
    {
        let string = String::from_str(alloc, self.string.as_str())?;
        Ok(Text { string })
    }
}

impl From<String> for Text {
    ghost use Rattle.std.specs.Prelude.{◌≡◌, string_bytes};

    ghost from_gives = { λ string text. text ≡ string_bytes string };

    /// The string's own bytes, without a copy.
    fn from(string: String) -> Text {
        Text { string }
    }
}
