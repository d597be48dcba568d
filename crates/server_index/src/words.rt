//! The words of a name, read without memory.
ghost use Rattle.std.specs.Prelude.{◌≡◌, ◌<◌, ◌≤◌, [], ◌∷◌, length, drop, MatchOption, slice_index, true};
ghost use Rattle.server_index.specs.Words as words;
ghost use Rattle.search_expr.specs.Words as texts;

const FIRST_KEY: u64 = 1;

const FACTOR: u64 = 1_099_511_628_211;

/// The key of a word, and the place behind the word.
#[derive(Clone, Copy)]
pub struct WordKey {
    pub key: u64,
    pub end: usize,
}

fn is_word_byte(byte: u8) -> bool
    ensures { result ≡ texts.is_word_byte byte }
{
    byte >= 0x80 || byte.is_ascii_alphanumeric()
}

fn add_byte(key: u64, byte: u8) -> u64
    ensures { result ≡ words.next_key key (texts.lower byte) }
{
    key.wrapping_mul(FACTOR)
        .wrapping_add(u64::from(byte.to_ascii_lowercase()))
}

fn skip(text: &[u8], at: usize) -> usize
    requires { at ≤ length text.now }
    ensures same { words.keys (drop result text.now) ≡ words.keys (drop at text.now) }
    ensures later { at ≤ result }
    ensures within { result ≤ length text.now }
    ensures stops { result < length text.now → texts.is_word_byte (slice_index text.now result) ≡ true }
{
    let mut place = at;
    while place < text.len() && !is_word_byte(text[place]) {
        place += 1;
    }
    place
}

fn rest_of_word(text: &[u8], at: usize, first: u64) -> WordKey
    requires { at ≤ length text.now }
    ensures keys { words.keys_behind first (drop at text.now)
        ≡ result.key ∷ words.keys (drop result.end text.now) }
    ensures later { at ≤ result.end }
    ensures within { result.end ≤ length text.now }
{
    let mut end = at;
    let mut key = first;
    while end < text.len() && is_word_byte(text[end]) {
        key = add_byte(key, text[end]);
        end += 1;
    }
    WordKey { key, end }
}

/// The next word of a text from a place on.
pub fn next_word(text: &[u8], at: usize) -> Option<WordKey>
    requires { at ≤ length text.now }
    ensures { MatchOption result (words.keys (drop at text.now) ≡ [])
        (λ w. (words.keys (drop at text.now) ≡ w.key ∷ words.keys (drop w.end text.now))
        × (at < w.end) × (w.end ≤ length text.now)) }
{
    let start = skip(text, at);
    if start == text.len() {
        return None;
    }
    Some(rest_of_word(text, start + 1, add_byte(FIRST_KEY, text[start])))
}
