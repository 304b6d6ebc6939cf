// The words of the head.
ghost use Rattle.std.specs.Prelude.{◌≡◌, ◌<◌, ◌≤◌, length, get_or, set};
ghost use Rattle.std.proofs.lemmas.List.Edits.{sets};
ghost use Rattle.laws.specs.Wrap.{add32};
ghost use Rattle.rules.specs.Apply.{put_shifted};
ghost use Rattle.rules.specs.Begin.{out_of_steps};
ghost use Rattle.rules.specs.Layout.{head_words, settings_of, steps_at};
ghost use Rattle.rules.specs.Make.{shipped, in_edition, new_mark, new_head};

use crate::places::{
    DEPTH, EDITION, KIND, MARK, PUTS, ROWS, SHIFT, STEPS, STRIDE, TOP, WIDTH, WORKER_COUNT,
};
use rules::numbers::{SHIPPED, STEP_LIMIT};
use rules::{Effect, Settings};

// The settings that the words hold.
pub fn settings(words: &[u32]) -> Settings
    requires { head_words ≤ length words.now }
    ensures { result ≡ settings_of words.now }
{
    Settings {
        kind: words[KIND],
        width: words[WIDTH],
        depth: words[DEPTH],
        shift: words[SHIFT],
        rows: words[ROWS],
        workers: words[WORKER_COUNT],
        stride: words[STRIDE],
        edition: words[EDITION],
    }
}

// The same settings in an edition.
pub fn in_edition(g: Settings, edition: u32) -> Settings
    ensures { result ≡ in_edition edition g }
{
    Settings { edition, ..g }
}

// Settings of the shipped edition. That number is written here, and not read, so that the compiler knows how many words a worker has.
pub fn as_shipped(g: Settings) -> Settings
    requires { g.edition ≡ shipped }
    ensures { result ≡ g }
{
    in_edition(g, SHIPPED)
}

// The settings of a pool of the shipped edition.
pub fn shipped_settings(words: &[u32]) -> Settings
    requires { (head_words ≤ length words.now) × ((settings_of words.now).edition ≡ shipped) }
    ensures { result ≡ settings_of words.now }
{
    as_shipped(settings(words))
}

// Whether the step count is at its limit, or above.
pub fn out_of_steps(words: &[u32]) -> bool
    requires { head_words ≤ length words.now }
    ensures { result ≡ out_of_steps words.now }
{
    STEP_LIMIT <= words[STEPS]
}

// The steps counted; none by words that have no count.
pub fn steps_counted(words: &[u32]) -> u32
    ensures { result ≡ get_or words.now steps_at 0 }
{
    words.get(STEPS).copied().unwrap_or(0)
}

// Adds 1 to the step count.
pub fn count_step(words: &mut [u32])
    requires { steps_at < length words.old }
    ensures { words.new ≡ set words.old steps_at (add32 (get_or words.old steps_at 0) 1) }
{
    words[STEPS] = words[STEPS].wrapping_add(1);
}

// Writes the two words of a stack's window.
#[tactic(auto, unfolding(rules::specs::Apply::put_shifted))]
pub fn put_shifted(words: &mut [u32], e: Effect)
    requires { head_words ≤ length words.old }
    ensures { words.new ≡ put_shifted words.old e }
{
    words[TOP] = e.top;
    words[MARK] = e.mark;
}

// T of a new pool, or the version of G.
#[tactic(auto, using(laws::specs::Tests::tests), unfolding(laws::specs::Choice::cond))]
fn new_mark(g: Settings) -> u32
    ensures { result ≡ new_mark g }
{
    if g.kind == 0 { g.depth } else { 0 }
}

// Writes the first words of a new pool.
pub fn put_head(words: &mut [u32], g: Settings)
    requires { head_words ≤ length words.old }
    ensures { words.new ≡ sets words.old 0 (new_head g) }
{
    let mark = new_mark(g);
    words[KIND] = g.kind;
    words[WIDTH] = g.width;
    words[DEPTH] = g.depth;
    words[SHIFT] = g.shift;
    words[ROWS] = g.rows;
    words[WORKER_COUNT] = g.workers;
    words[STEPS] = 0;
    words[PUTS] = 0;
    words[TOP] = g.depth;
    words[MARK] = mark;
    words[STRIDE] = g.stride;
    words[EDITION] = g.edition;
}
