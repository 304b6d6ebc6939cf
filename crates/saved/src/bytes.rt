// The words of bytes, and the bytes of words.
ghost use Rattle.std.specs.Prelude.{◌≡◌, ◌*◌, ◌≤◌, length, take};
ghost use Rattle.runfile.specs.Words.{word_bytes};
ghost use Rattle.saved.specs.Bytes.{words_in, bytes_for, fronted};

use runfile::word::{Read, WORD_BYTES, word_at, word_bytes};

// Puts the whole words of bytes into lent words, no more than these are; how many are put.
pub fn get_words(src: &[u8], words: &mut [u32]) -> usize
    ensures words_after { words.new ≡ fronted (take (length words.old) (words_in src.now)) words.old }
    ensures value { (result ≡ length (take (length words.old) (words_in src.now))) × (result ≤ length words.old) }
{
    for (n, place) in words.iter_mut().enumerate() {
        let Read::Word(word) = word_at(src, n) else {
            return n;
        };
        *place = word;
    }
    words.len()
}

// Puts words into bytes, from the first byte on.
pub fn put_words(out: &mut [u8], words: &[u32])
    requires { word_bytes * length words.now ≤ length out.old }
    ensures { out.new ≡ fronted (bytes_for words.now) out.old }
{
    for (k, word) in words.iter().enumerate() {
        let at = WORD_BYTES * k;
        out[at..at + WORD_BYTES].copy_from_slice(&word_bytes(*word));
    }
}
