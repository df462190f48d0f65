//! The keys of a packet's words.
ghost use Rattle.std.specs.Prelude.{◌≡◌, is_some};
ghost use Rattle.std.specs.List.{list_all, list_any};
ghost use Rattle.fw_words.specs.Keys.{after_key, texts};
ghost use Rattle.fw_packet.specs.PacketWords.{is_known};

use fw_words::after_key;

/// Whether each word begins with a key of a packet's word.
pub fn are_known(words: &[&str]) -> bool
    ensures { result ≡ list_all is_known (texts words.now) }
{
    all_are_known(words)
}

fn all_are_known(words: &[&str]) -> bool
    ensures { result ≡ list_all (λ word. is_known word.now) words.now }
{
    words.iter().all(|word| is_known(word))
}

#[tactic(auto, unfolding(crate::specs::PacketWords::is_known))]
fn is_known(word: &str) -> bool
    ensures { result ≡ is_known word.now }
{
    let keys = [
        "in=", "host", "src=", "dst=", "proto=", "mac=", "sport=", "dport=", "type=", "code=",
        "state=", "dnat", "pkt=", "mark=", "limit=", "route=",
    ];
    begins_with_any(&keys, word)
}

fn begins_with_any(keys: &[&str], word: &str) -> bool
    ensures { result ≡ list_any (λ key. is_some (after_key key.now word.now)) keys.now }
{
    keys.iter().any(|key| begins_with(key, word))
}

fn begins_with(key: &str, word: &str) -> bool
    ensures { result ≡ is_some (after_key key.now word.now) }
{
    after_key(key, word).is_some()
}
