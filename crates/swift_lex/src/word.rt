ghost use Rattle.std.specs.Prelude.{◌≡◌, ◌↔◌, ℕ, List, IfOk, IsTrue};
ghost use Rattle.std.specs.Str.{bytes_eq};

use std::alloc::{AllocError, Global};
use std::marker::Model;

/// The bytes of a word of the source: a spelling, or the text that a string means.
/// A clause sees a `Word` as the list of its bytes.
#[derive(Debug, Drop)]
pub struct Word {
    bytes: Vec<u8>,
}

impl Model for Word {
    ghost Value = { List ℕ };

    ghost view = { λ w. w.bytes.items };
}

impl Word {
    /// The word with these bytes. It keeps the vector, and takes no memory.
    pub fn new(bytes: Vec<u8>) -> Word
        ensures { result ≡ bytes.items }
    {
        Word { bytes }
    }

    /// Gives the bytes back as the vector that holds them, and takes no memory.
    pub fn into_vec(self) -> Vec<u8>
        ensures { result.items ≡ self }
    {
        let Word { bytes } = self;
        bytes
    }

    /// The bytes of the word.
    pub fn as_bytes(&self) -> &[u8]
        ensures { result.now ≡ self.now }
    {
        self.bytes.as_slice()
    }

    /// Whether the word is exactly these bytes.
    pub fn is(&self, word: &[u8]) -> bool
        ensures exact { IsTrue result ↔ self.now ≡ word.now }
        ensures value { result ≡ bytes_eq self.now word.now }
    {
        self.bytes.as_slice() == word
    }

    /// A second word with the same bytes. Fails where memory runs out.
    pub fn copy(&self, alloc: Global) -> Result<Word, AllocError>
        ensures { IfOk result (λ w. w ≡ self.now) }
    {
        Ok(Word {
            bytes: self.bytes.as_slice().to_vec(alloc)?,
        })
    }
}
