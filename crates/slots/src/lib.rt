// A worker's words as they lie, from `at` on: those that a step's rules read, and its failed commits.
#![tactic(auto)]

ghost use Rattle.std.specs.Prelude.{◌≡◌, ◌+◌, ◌<◌, ◌≤◌, length, get_or, set};
ghost use Rattle.std.proofs.lemmas.List.Edits.{sets};
ghost use Rattle.laws.specs.Choice.{cond};
ghost use Rattle.rules.specs.Apply.{count_lost, put_worker};
ghost use Rattle.rules.specs.Begin.{idle_at};
ghost use Rattle.rules.specs.Layout.{worker_words, slot_words, width_word, steps_at, phase_at, index_at, lost_at};
ghost use Rattle.rules.specs.Limits.{windowed};
ghost use Rattle.rules.specs.Worker.{slot_at, words_of, put_slot};

use image::{
    BOTTOM, EXTRA, INDEX, LOST, PHASE, SCAN, SEEN, SEEN_WIDTH, SEEN_WINDOW, SUM, VALUE, count_step,
    is_windowed, put_pair, worker_words,
};
use rules::numbers::IDLE;
use rules::{Effect, Settings, Slot};

// The number of the worker's phase.
pub fn phase_number(words: &[u32], at: usize) -> u32
    requires { at + slot_words ≤ length words.now }
    ensures { result ≡ get_or words.now (phase_at at) 0 }
{
    words[at + PHASE]
}

// Whether the worker is idle.
pub fn idle_at(words: &[u32], at: usize) -> bool
    requires { at + slot_words ≤ length words.now }
    ensures { result ≡ idle_at words.now at }
{
    words[at + PHASE] == IDLE
}

// The worker's index.
pub fn index_of(words: &[u32], at: usize) -> u32
    requires { at + slot_words ≤ length words.now }
    ensures { result ≡ get_or words.now (index_at at) 0 }
{
    words[at + INDEX]
}

// Writes the worker's index.
pub fn put_index(words: &mut [u32], at: usize, x: u32)
    requires { at + slot_words ≤ length words.old }
    ensures { words.new ≡ set words.old (index_at at) x }
{
    words[at + INDEX] = x;
}

// Word `k` of the worker behind its failed commits; 0 in an edition that does not have it.
#[tactic(auto, using(rules::proofs::Workers::windowed_is, rules::proofs::Workers::words_two), unfolding(laws::specs::Choice::cond))]
fn seen_word(words: &[u32], g: Settings, at: usize, k: usize) -> u32
    requires edition_in_bounds { at + worker_words g.edition ≤ length words.now }
    requires k_le_width_word { k ≤ width_word }
    ensures { result ≡ cond (windowed g) (get_or words.now (at + k) 0) 0 }
{
    if is_windowed(g) { words[at + k] } else { 0 }
}

// All of them but its failed commits.
#[tactic(auto, using(rules::proofs::Workers::slot_within), unfolding(rules::specs::Worker::slot_at))]
pub fn load(words: &[u32], g: Settings, at: usize) -> Slot
    requires { at + worker_words g.edition ≤ length words.now }
    ensures { result ≡ slot_at g words.now at }
{
    Slot {
        number: words[at + PHASE],
        value: words[at + VALUE],
        index: words[at + INDEX],
        window: words[at + SEEN_WINDOW],
        extra: words[at + EXTRA],
        scan: words[at + SCAN],
        seen: words[at + SEEN],
        sum: words[at + SUM],
        bottom: seen_word(words, g, at, BOTTOM),
        width: seen_word(words, g, at, SEEN_WIDTH),
    }
}

// Writes those before its failed commits.
fn store_first(words: &mut [u32], at: usize, s: Slot)
    requires { at + slot_words ≤ length words.old }
    ensures { words.new ≡ sets words.old at (words_of s) }
{
    words[at + PHASE] = s.number;
    words[at + VALUE] = s.value;
    words[at + INDEX] = s.index;
    words[at + SEEN_WINDOW] = s.window;
    words[at + EXTRA] = s.extra;
    words[at + SCAN] = s.scan;
    words[at + SEEN] = s.seen;
    words[at + SUM] = s.sum;
}

// Writes all of them but its failed commits.
#[tactic(auto, using(rules::proofs::Workers::slot_within, rules::proofs::Workers::windowed_is, rules::proofs::Workers::words_two), unfolding(laws::specs::Choice::cond, rules::specs::Worker::put_slot))]
pub fn store(words: &mut [u32], g: Settings, at: usize, s: Slot)
    requires { at + worker_words g.edition ≤ length words.old }
    ensures { words.new ≡ put_slot g words.old at s }
{
    store_first(words, at, s);
    if is_windowed(g) {
        put_pair(words, at + BOTTOM, s.bottom, s.width);
    }
}

// The failed commits of the worker, in an edition that counts them.
pub fn lost_of(words: &[u32], at: usize) -> u32
    requires { lost_at at < length words.now }
    ensures { result ≡ get_or words.now (lost_at at) 0 }
{
    words[at + LOST]
}

// Counts a failed commit of the worker, in an edition that does.
#[tactic(auto, using(laws::specs::Tests::tests), unfolding(laws::specs::Choice::cond, rules::specs::Apply::count_lost))]
pub fn count_lost(words: &mut [u32], g: Settings, at: usize)
    requires { at + worker_words g.edition ≤ length words.old }
    ensures { words.new ≡ count_lost words.old g at }
{
    if LOST < worker_words(g.edition) {
        words[at + LOST] = words[at + LOST].wrapping_add(1);
    }
}

// Counts the step, and writes the worker's words.
#[tactic(auto, unfolding(rules::specs::Apply::put_worker))]
pub fn put_worker(words: &mut [u32], g: Settings, at: usize, e: Effect)
    requires { (steps_at < length words.old) × (at + worker_words g.edition ≤ length words.old) }
    ensures { words.new ≡ put_worker words.old g at e }
{
    count_step(words);
    store(words, g, at, e.slot);
}
