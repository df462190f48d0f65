//! Words of a key and a value.
ghost use Rattle.std.specs.Prelude.{◌≡◌, None, Some, MatchResult};
ghost use Rattle.std.specs.Option.{option_copied};
ghost use Rattle.fw_words.specs.Keys.{after_key, at_most_one, only, texts, values};

use super::LineError;

/// What follows a key at the front of a word.
#[tactic(auto, using(crate::proofs::KeyLemmas::stripped))]
pub fn after_key<'a>(key: &str, word: &'a str) -> Option<&'a str>
    ensures { option_copied result ≡ after_key key.now word.now }
{
    word.strip_prefix(key)
}

/// The value of the words with this key, of which there may be at most one.
pub fn at_most_one<'a>(key: &str, words: &[&'a str]) -> Result<Option<&'a str>, LineError>
    ensures { MatchResult result (λ value. at_most_one (values key.now (texts words.now)) ≡ Some (option_copied value)) (λ error. (error ≡ LineError.BadLine) × (at_most_one (values key.now (texts words.now)) ≡ None)) }
{
    let mut found = None;
    for word in words {
        let Some(value) = after_key(key, word) else {
            continue;
        };
        if found.is_some() {
            return Err(LineError::BadLine);
        }
        found = Some(value);
    }
    Ok(found)
}

/// The value of the one word with this key.
pub fn only<'a>(key: &str, words: &[&'a str]) -> Result<&'a str, LineError>
    ensures { MatchResult result (λ value. only (values key.now (texts words.now)) ≡ Some value.now) (λ error. (error ≡ LineError.BadLine) × (only (values key.now (texts words.now)) ≡ None)) }
{
    match at_most_one(key, words)? {
        Some(value) => Ok(value),
        None => Err(LineError::BadLine),
    }
}
