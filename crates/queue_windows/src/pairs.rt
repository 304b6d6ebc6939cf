// A queue's window that moves on, and the pairs of its live windows, from the take window to the put window: a put window comes behind them, and a take
// window goes before them.
ghost use Rattle.std.specs.Prelude.{true, ◌≡◌, ◌+◌, ◌<◌, ◌≤◌, length};
ghost use Rattle.rules.specs.Apply.{pair_added, pair_gone, put_raised, put_dropped};
ghost use Rattle.rules.specs.Layout.{pair_at, needed};
ghost use Rattle.rules.specs.Limits.{Bounds, windowed, most_live};
ghost use Rattle.rules.specs.Windows.{live_of};

use crate::windows::{live_of, next_size};
use image::{LIVE, MARK, PAIR_WORDS, PAIRS, TOP, is_windowed, put_pair, windows_at};
use rules::numbers::MOST_LIVE;
use rules::{Effect, Settings};

// The words of all pairs but one.
const OTHERS: usize = PAIR_WORDS * (MOST_LIVE as usize - 1);

// The next size becomes that of the last window.
#[tactic(auto, unfolding(rules::specs::Apply::pair_added))]
fn add_pair(words: &mut [u32], g: Settings)
    requires bounds { Bounds g }
    requires most_live_in_bounds { (pair_at g most_live ≤ length words.old) × (live_of words.old g < most_live) }
    ensures { words.new ≡ pair_added words.old g }
{
    let live = live_of(words, g);
    let next = next_size(words, g);
    let at = windows_at(g);
    let last = at + PAIRS + PAIR_WORDS * (live as usize);
    put_pair(words, last, next.width, next.depth);
    words[at + LIVE] = live + 1;
}

// Writes a queue's put window, and its size where windows have sizes of their own.
#[tactic(auto, using(rules::proofs::Workers::windowed_is, rules::proofs::Workers::windows_some), unfolding(laws::specs::Choice::cond, rules::specs::Apply::put_raised))]
pub fn put_raised(words: &mut [u32], g: Settings, e: Effect)
    requires bounds { Bounds g }
    requires g_in_bounds { (needed g ≤ length words.old) × (windowed g ≡ true → live_of words.old g < most_live) }
    ensures { words.new ≡ put_raised words.old g e }
{
    if is_windowed(g) {
        add_pair(words, g);
    }
    words[TOP] = e.top;
}

// The first pair goes: each of the others moves down by one, and the last is zero.
#[tactic(auto, using(crate::proofs::Down::down_copies), unfolding(rules::specs::Apply::pair_gone))]
fn drop_pair(words: &mut [u32], g: Settings)
    requires bounds { Bounds g }
    requires most_live_in_bounds { (pair_at g most_live ≤ length words.old) × (1 ≤ live_of words.old g) }
    ensures { words.new ≡ pair_gone words.old g }
{
    let live = live_of(words, g);
    let at = windows_at(g);
    let pairs = at + PAIRS;
    words.copy_within(pairs + PAIR_WORDS..pairs + PAIR_WORDS + OTHERS, pairs);
    put_pair(words, pairs + OTHERS, 0, 0);
    words[at + LIVE] = live - 1;
}

// Writes a queue's take window; the pair of the one before goes where windows have sizes of their own.
#[tactic(auto, using(rules::proofs::Workers::windowed_is, rules::proofs::Workers::windows_some), unfolding(laws::specs::Choice::cond, rules::specs::Apply::put_dropped))]
pub fn put_dropped(words: &mut [u32], g: Settings, e: Effect)
    requires bounds { Bounds g }
    requires g_in_bounds { (needed g ≤ length words.old) × (windowed g ≡ true → 1 ≤ live_of words.old g) }
    ensures { words.new ≡ put_dropped words.old g e }
{
    if is_windowed(g) {
        drop_pair(words, g);
    }
    words[MARK] = e.mark;
}
