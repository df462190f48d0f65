//! The values of a packet's words, and how the words of a key are read.
ghost use Rattle.std.specs.Prelude.{IfOk, IfSome, List, ℕ, Option, All};
ghost use Rattle.fw_words.specs.Keys.{texts};
ghost use Rattle.fw_words.specs.Reading.{Says};
ghost use Rattle.fw_packet.specs.PacketWords.{optional, repeated, required};

use fw_base::Seq;
use fw_words::{LineError, after_key, at_most_one, only};
use std::alloc::Global;

/// What stands behind a key.
pub trait Value {
    /// What a text says.
    ghost reading: { List ℕ → Option Self };

    /// The range of such values.
    ghost in_range: { Self → Type 0 };

    /// Reads a value. BadLine: the text says none.
    fn read(alloc: Global, text: &str) -> Result<Self, LineError>
        ensures says { Says result (reading text.now) }
        ensures in_range { IfOk result in_range };
}

/// The value of the one word with this key. BadLine: there is no such word, or there are several, or its value is bad.
#[tactic(auto, unfolding(crate::specs::PacketWords::required))]
pub fn required<T: Value>(alloc: Global, key: &str, words: &[&str]) -> Result<T, LineError>
    ensures says { Says result (required key.now T.reading (texts words.now)) }
    ensures in_range { IfOk result T.in_range }
{
    let text = only(key, words)?;
    T::read(alloc, text)
}

/// The value of the word with this key, if there is one. BadLine: there are several, or its value is bad.
#[tactic(auto, unfolding(crate::specs::PacketWords::optional))]
pub fn optional<T: Value>(alloc: Global, key: &str, words: &[&str]) -> Result<Option<T>, LineError>
    ensures says { Says result (optional key.now T.reading (texts words.now)) }
    ensures in_range { IfOk result (λ found. IfSome found T.in_range) }
{
    match at_most_one(key, words)? {
        Some(text) => Ok(Some(T::read(alloc, text)?)),
        None => Ok(None),
    }
}

/// The values of all words with this key, in order. BadLine: one of them is bad.
#[tactic(auto, unfolding(crate::specs::PacketWords::repeated))]
pub fn repeated<T: Value + Drop>(
    alloc: Global,
    key: &str,
    words: &[&str],
) -> Result<Seq<T>, LineError>
    ensures says { Says result (repeated key.now T.reading (texts words.now)) }
    ensures in_range { IfOk result (λ found. All T.in_range found) }
{
    let mut found = Seq::new(alloc);
    for word in words {
        if let Some(text) = after_key(key, word) {
            found.push(T::read(alloc, text)?)?;
        }
    }
    Ok(found)
}
