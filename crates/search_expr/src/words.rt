//! The words of a text, read without memory.
ghost use Rattle.std.specs.Prelude.{◌≡◌, ◌<◌, ◌≤◌, ◌+◌, [], ◌∷◌, ◌++◌, length, drop, take, map, MatchOption, slice_index, ◌&&◌, not, true, nat_eq, List};
ghost use Rattle.std.specs.List.{slice_range};
ghost use Rattle.search_expr.specs.Words as words;

/// A byte of words, in the table below.
const W: bool = true;

/// Any other byte, in the table below.
const O: bool = false;

/// Which bytes words have: ASCII letters, ASCII digits and the bytes from 0x80.
static WORD_BYTES: [bool; 256] = [
    O, O, O, O, O, O, O, O, O, O, O, O, O, O, O, O, O, O, O, O, O, O, O, O, O, O, O, O, O, O, O, O,
    O, O, O, O, O, O, O, O, O, O, O, O, O, O, O, O, W, W, W, W, W, W, W, W, W, W, O, O, O, O, O, O,
    O, W, W, W, W, W, W, W, W, W, W, W, W, W, W, W, W, W, W, W, W, W, W, W, W, W, W, O, O, O, O, O,
    O, W, W, W, W, W, W, W, W, W, W, W, W, W, W, W, W, W, W, W, W, W, W, W, W, W, W, O, O, O, O, O,
    W, W, W, W, W, W, W, W, W, W, W, W, W, W, W, W, W, W, W, W, W, W, W, W, W, W, W, W, W, W, W, W,
    W, W, W, W, W, W, W, W, W, W, W, W, W, W, W, W, W, W, W, W, W, W, W, W, W, W, W, W, W, W, W, W,
    W, W, W, W, W, W, W, W, W, W, W, W, W, W, W, W, W, W, W, W, W, W, W, W, W, W, W, W, W, W, W, W,
    W, W, W, W, W, W, W, W, W, W, W, W, W, W, W, W, W, W, W, W, W, W, W, W, W, W, W, W, W, W, W, W,
];

/// Each byte as words are compared: an ASCII letter in lower case, and any other byte as it is.
static LOWERED: [u8; 256] = [
    0x00, 0x01, 0x02, 0x03, 0x04, 0x05, 0x06, 0x07, 0x08, 0x09, 0x0A, 0x0B, 0x0C, 0x0D, 0x0E, 0x0F,
    0x10, 0x11, 0x12, 0x13, 0x14, 0x15, 0x16, 0x17, 0x18, 0x19, 0x1A, 0x1B, 0x1C, 0x1D, 0x1E, 0x1F,
    0x20, 0x21, 0x22, 0x23, 0x24, 0x25, 0x26, 0x27, 0x28, 0x29, 0x2A, 0x2B, 0x2C, 0x2D, 0x2E, 0x2F,
    0x30, 0x31, 0x32, 0x33, 0x34, 0x35, 0x36, 0x37, 0x38, 0x39, 0x3A, 0x3B, 0x3C, 0x3D, 0x3E, 0x3F,
    0x40, 0x61, 0x62, 0x63, 0x64, 0x65, 0x66, 0x67, 0x68, 0x69, 0x6A, 0x6B, 0x6C, 0x6D, 0x6E, 0x6F,
    0x70, 0x71, 0x72, 0x73, 0x74, 0x75, 0x76, 0x77, 0x78, 0x79, 0x7A, 0x5B, 0x5C, 0x5D, 0x5E, 0x5F,
    0x60, 0x61, 0x62, 0x63, 0x64, 0x65, 0x66, 0x67, 0x68, 0x69, 0x6A, 0x6B, 0x6C, 0x6D, 0x6E, 0x6F,
    0x70, 0x71, 0x72, 0x73, 0x74, 0x75, 0x76, 0x77, 0x78, 0x79, 0x7A, 0x7B, 0x7C, 0x7D, 0x7E, 0x7F,
    0x80, 0x81, 0x82, 0x83, 0x84, 0x85, 0x86, 0x87, 0x88, 0x89, 0x8A, 0x8B, 0x8C, 0x8D, 0x8E, 0x8F,
    0x90, 0x91, 0x92, 0x93, 0x94, 0x95, 0x96, 0x97, 0x98, 0x99, 0x9A, 0x9B, 0x9C, 0x9D, 0x9E, 0x9F,
    0xA0, 0xA1, 0xA2, 0xA3, 0xA4, 0xA5, 0xA6, 0xA7, 0xA8, 0xA9, 0xAA, 0xAB, 0xAC, 0xAD, 0xAE, 0xAF,
    0xB0, 0xB1, 0xB2, 0xB3, 0xB4, 0xB5, 0xB6, 0xB7, 0xB8, 0xB9, 0xBA, 0xBB, 0xBC, 0xBD, 0xBE, 0xBF,
    0xC0, 0xC1, 0xC2, 0xC3, 0xC4, 0xC5, 0xC6, 0xC7, 0xC8, 0xC9, 0xCA, 0xCB, 0xCC, 0xCD, 0xCE, 0xCF,
    0xD0, 0xD1, 0xD2, 0xD3, 0xD4, 0xD5, 0xD6, 0xD7, 0xD8, 0xD9, 0xDA, 0xDB, 0xDC, 0xDD, 0xDE, 0xDF,
    0xE0, 0xE1, 0xE2, 0xE3, 0xE4, 0xE5, 0xE6, 0xE7, 0xE8, 0xE9, 0xEA, 0xEB, 0xEC, 0xED, 0xEE, 0xEF,
    0xF0, 0xF1, 0xF2, 0xF3, 0xF4, 0xF5, 0xF6, 0xF7, 0xF8, 0xF9, 0xFA, 0xFB, 0xFC, 0xFD, 0xFE, 0xFF,
];

fn lowered(byte: u8) -> u8
    ensures { result ≡ words.lower byte }
{
    LOWERED[byte as usize]
}

fn is_word_byte(byte: u8) -> bool
    ensures { result ≡ words.is_word_byte byte }
{
    WORD_BYTES[byte as usize]
}

fn skip(text: &[u8]) -> usize
    ensures same { words.words (drop result text.now) ≡ words.words text.now }
    ensures within { result ≤ length text.now }
    ensures stops { result < length text.now → words.is_word_byte (slice_index text.now result) ≡ true }
{
    let mut place = 0;
    while place < text.len() && !is_word_byte(text[place]) {
        place += 1;
    }
    place
}

/// Where the word ends that begins at a place.
fn word_end(text: &[u8], at: usize) -> usize
    requires inside { at < length text.now }
    requires word { words.is_word_byte (slice_index text.now at) ≡ true }
    ensures words { words.words (drop at text.now)
        ≡ map words.lower (slice_range text.now at result) ∷ words.words (drop result text.now) }
    ensures later { at < result }
    ensures within { result ≤ length text.now }
{
    let mut end = at + 1;
    while end < text.len() && is_word_byte(text[end]) {
        end += 1;
    }
    end
}

/// The next word of a text, as it stands there, and the text behind it.
pub fn next_word(text: &[u8]) -> Option<(&[u8], &[u8])>
    ensures { MatchOption result (words.words text.now ≡ [])
        (λ w. words.IsFirstWord text.now w.0.now w.1.now) }
{
    let start = skip(text);
    if start == text.len() {
        return None;
    }
    let end = word_end(text, start);
    Some((&text[start..end], &text[end..]))
}

/// Whether two texts are equal but for the case of ASCII letters.
pub fn same_text(left: &[u8], right: &[u8]) -> bool
    ensures { result ≡ words.same_text left.now right.now }
{
    left.eq_ignore_ascii_case(right)
}

/// Whether a byte of words stands at a place, and none before it.
fn begins_word(text: &[u8], at: usize) -> bool
    requires { at < length text.now }
    ensures { result ≡ (words.is_word_byte (slice_index text.now at) && not (words.is_within text.now at)) }
{
    is_word_byte(text[at]) && (at == 0 || !is_word_byte(text[at - 1]))
}

/// Whether a text of at least one byte is the word that begins at a place.
fn is_word_at(word: &[u8], text: &[u8], at: usize) -> bool
    requires inside { at < length text.now }
    requires word { 0 < length word.now }
    ensures { result ≡ words.stands_at (map words.lower word.now) text.now at }
{
    if !begins_word(text, at) {
        return false;
    }
    let end = word_end(text, at);
    same_text(word, &text[at..end])
}

/// Whether a text of at least one byte is a word of another. Where a word ends is looked for only where its first
/// byte is right.
fn has_word(word: &[u8], text: &[u8]) -> bool
    requires { 0 < length word.now }
    ensures { result ≡ words.has_word (words.words text.now) (map words.lower word.now) }
{
    let first = lowered(word[0]);
    let mut at = 0;
    while at < text.len() {
        if first == lowered(text[at]) && is_word_at(word, text, at) {
            return true;
        }
        at += 1;
    }
    false
}

/// Whether each word of a text is one of a name.
pub fn has_words(text: &[u8], name: &[u8]) -> bool
    ensures { result ≡ words.has_words text.now name.now }
{
    let mut rest = text;
    while let Some((next, after)) = next_word(rest) {
        if !has_word(next, name) {
            return false;
        }
        rest = after;
    }
    true
}
