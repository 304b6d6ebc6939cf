// The words of a run file's bytes.
ghost use Rattle.std.specs.Prelude.{◌≡◌};
ghost use Rattle.runfile.specs.Words.{bytes_of, read_at};

// The bytes of a word.
pub const WORD_BYTES: usize = 4;

// What stands at a word position: a word, the first bytes of one that the file's end cuts off, or nothing.
#[derive(Clone, Copy)]
pub enum Read {
    Word(u32),
    Cut,
    End,
}

// What stands at word position `at`.
#[tactic(auto, using(crate::proofs::Words::cut_word, crate::proofs::Words::past_words, std::proofs::lemmas::Grind::common_steps))]
pub fn word_at(bytes: &[u8], at: usize) -> Read
    ensures { result ≡ read_at bytes.now at }
{
    let (words, rest) = bytes.as_chunks::<WORD_BYTES>();
    match words.get(at) {
        Some(word) => Read::Word(u32::from_le_bytes(*word)),
        None if at == words.len() && !rest.is_empty() => Read::Cut,
        None => Read::End,
    }
}

// The bytes of a word, as they stand in a file.
pub fn word_bytes(word: u32) -> [u8; WORD_BYTES]
    ensures { result ≡ bytes_of word }
{
    word.to_le_bytes()
}
