// Make.
ghost use Rattle.std.specs.Prelude.{◌≡◌, ◌+◌, ◌∷◌, [], ◌≤◌, length};
ghost use Rattle.std.proofs.lemmas.List.Edits.{sets};
ghost use Rattle.rules.specs.Answers.{out};
ghost use Rattle.rules.specs.Layout.{windows_at, needed};
ghost use Rattle.rules.specs.Limits.{Bounds};
ghost use Rattle.rules.specs.Make.{settings_from, new_windows, indexed, made_words, make_of};

use image::{
    LIVE, NEXT_DEPTH, NEXT_WIDTH, PAIRS, SIZE_SET, put_head, windows_at, words_needed, worker_at,
};
use limits::settings_fit;
use queue_windows::has_windows;
use rules::numbers::SHIPPED;
use rules::{Answer, Refusal, Settings};
use slots::put_index;

// One window is live, both put window and take window, and has the pool's size, like the next, and none was set.
// Stays: each word by its name, which `image` alone gives a place.
fn put_first_window(words: &mut [u32], g: Settings, at: usize)
    requires { at + 6 ≤ length words.old }
    ensures { words.new ≡ sets words.old at (g.width ∷ g.depth ∷ 0 ∷ 1 ∷ g.width ∷ g.depth ∷ []) }
{
    words[at + NEXT_WIDTH] = g.width;
    words[at + NEXT_DEPTH] = g.depth;
    words[at + SIZE_SET] = 0;
    words[at + LIVE] = 1;
    words[at + PAIRS] = g.width;
    words[at + PAIRS + 1] = g.depth;
}

// A queue has these words where windows have sizes of their own.
fn put_windows(words: &mut [u32], g: Settings)
    requires bounds { Bounds g }
    requires g_in_bounds { needed g ≤ length words.old }
    ensures { words.new ≡ sets words.old (windows_at g) (new_windows g) }
{
    if has_windows(g) {
        put_first_window(words, g, windows_at(g));
    }
}

// Gives each worker its index.
fn put_indices(words: &mut [u32], g: Settings)
    requires bounds { Bounds g }
    requires g_in_bounds { needed g ≤ length words.old }
    ensures { words.new ≡ indexed words.old g g.workers }
{
    for i in 0..g.workers {
        put_index(words, worker_at(g, i), i % g.width);
    }
}

// Writes a new pool into the needed words.
fn put_new(words: &mut [u32], g: Settings, n: usize)
    requires bounds { Bounds g }
    requires needed_words { (n ≡ needed g) × (needed g ≤ length words.old) }
    ensures { words.new ≡ made_words words.old g }
{
    words[..n].fill(0);
    put_head(words, g);
    put_windows(words, g);
    put_indices(words, g);
}

// Makes a new pool of the settings in the lent words, of the shipped edition.
// Stays: each setting is an argument, as the papers and the C interface have it.
#[tactic(auto, unfolding(rules::specs::Make::make_of, laws::specs::Choice::cond))]
pub fn make(
    words: &mut [u32],
    kind: u32,
    width: u32,
    depth: u32,
    shift: u32,
    rows: u32,
    workers: u32,
    stride: u32,
) -> Result<Answer, Refusal>
    ensures { out result words.new ≡ make_of words.old (settings_from kind width depth shift rows workers stride) }
{
    let g = Settings {
        kind,
        width,
        depth,
        shift,
        rows,
        workers,
        stride,
        edition: SHIPPED,
    };
    if !settings_fit(g) {
        return Err(Refusal::OffLimits);
    }
    let n = words_needed(g);
    if words.len() < n {
        return Err(Refusal::TooFewWords);
    }
    put_new(words, g, n);
    Ok(Answer::Moving)
}
