// A file with a saved pool, moved from an edition to another.
ghost use Rattle.std.specs.Prelude.{◌≡◌, ◌*◌, ◌≤◌, length, IfOk};
ghost use Rattle.rules.specs.Answers.{out};
ghost use Rattle.rules.specs.Layout.{settings_of, needed};
ghost use Rattle.rules.specs.Limits.{Bounds};
ghost use Rattle.turnaround.specs.Move.{move_of};
ghost use Rattle.runfile.specs.Words.{word_bytes};
ghost use Rattle.saved.specs.Bytes.{words_in, bytes_for, fronted};
ghost use Rattle.saved.specs.File.{pool_words, saved_of, filed, filed_in};

use crate::bytes::{get_words, put_words};
use image::{MOST_WORDS, settings, words_needed};
use moves::move_pool;
use rules::{Answer, Refusal};
use runfile::word::WORD_BYTES;

// The bytes of the largest pool.
pub const MOST_BYTES: usize = WORD_BYTES * MOST_WORDS;

// Moves the pool of a file into lent words. No more words are read than the largest pool needs: no move looks at others.
fn move_words(src: &[u8], old: u32, to: &mut [u32], new: u32) -> Result<Answer, Refusal>
    ensures { out result to.new ≡ move_of old new (words_in src.now) to.old }
{
    let mut from = [0u32; MOST_WORDS];
    let n = get_words(src, &mut from);
    move_pool(&from[..n], old, to, new)
}

// Puts the needed words of a pool into bytes; how many bytes they are.
fn put_pool(out: &mut [u8], words: &[u32]) -> usize
    requires bounds { Bounds (settings_of words.now) }
    requires words_in_bounds { (needed (settings_of words.now) ≤ length words.now) × (word_bytes * needed (settings_of words.now) ≤ length out.old) }
    ensures out_after { out.new ≡ fronted (bytes_for (pool_words words.now)) out.old }
    ensures value { (result ≡ length (bytes_for (pool_words words.now))) × (result ≤ length out.old) }
{
    let n = words_needed(settings(words));
    put_words(out, &words[..n]);
    WORD_BYTES * n
}

// Moves the pool of a file from an edition to another, into bytes; how many the moved pool has.
pub fn move_file(
    src: &[u8],
    old: u32,
    out: &mut [u8; MOST_BYTES],
    new: u32,
) -> Result<usize, Refusal>
    ensures out_after { filed result out.new ≡ filed_in out.old (saved_of old new src.now) }
    ensures used_in_bounds { IfOk result (λ used. used ≤ length out.new) }
{
    let mut to = [0u32; MOST_WORDS];
    move_words(src, old, &mut to, new)?;
    Ok(put_pool(out, &to))
}
