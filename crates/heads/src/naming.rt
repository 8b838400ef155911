//! Names from byte texts, and their texts back.
ghost use Rattle.std.specs.Prelude.{◌≡◌, Decides, MatchOption};
ghost use Rattle.heads.specs.Texts.{NameText, printable};
ghost use Rattle.heads.specs.Names.{text_of};

use crate::name::{MOST_BYTES, Name};

impl Name {
    /// The name of this text, if it has 1 to 24 bytes, each from 32 to 126.
    pub fn new(text: &[u8]) -> Option<Name>
        ensures { MatchOption result (NameText text.now → ⊥) (λ n. NameText text.now × (text_of n ≡ text.now)) }
    {
        let len = text.len();
        if len == 0 || len > MOST_BYTES || !are_printable(text) {
            return None;
        }
        let mut bytes = [0; MOST_BYTES];
        bytes[..len].copy_from_slice(text);
        Some(Name { bytes, len })
    }

    /// The name's text: 1 to 24 bytes, each from 32 to 126.
    pub fn text(&self) -> &[u8]
        ensures is { result.now ≡ text_of self.now }
        ensures fits { NameText result.now }
    {
        &self.bytes[..self.len]
    }

    /// Whether two names are the same text.
    pub fn is_same(&self, other: &Name) -> bool
        ensures { Decides result (text_of self.now ≡ text_of other.now) }
    {
        self == other
    }
}

// Whether each byte may stand in a name: those from 32 to 126.
fn are_printable(text: &[u8]) -> bool
    ensures { result ≡ printable text.now }
{
    text.iter().all(|byte| (b' '..=b'~').contains(byte))
}
