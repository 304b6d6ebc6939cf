// A queue's windows: how many are live, how large they are and the next one is, and that they lead from T up to P.
ghost use Rattle.std.specs.Prelude.{◌≡◌, ◌+◌, ◌-◌, ◌<◌, ◌≤◌, length, ◌==◌, nat_eq, nat_le, slice_index};
ghost use Rattle.laws.specs.Choice.{both, all, all_below};
ghost use Rattle.rules.specs.Fit.{pair_fit, sizes_fit, tops_fit, windows_fit};
ghost use Rattle.rules.specs.Layout.{mark_at, top_at, set_at, pair_at, needed};
ghost use Rattle.rules.specs.Limits.{Bounds, most_live, size_fit};
ghost use Rattle.rules.specs.Windows.{nth_size, bottom_of, live_of};

use image::{MARK, PAIR_WORDS, PAIRS, TOP, WINDOWS_WORDS, is_windowed, windows_at};
use limits::size_fit;
use queue_windows::{live_of, next_size, nth_size, size_set, take_bottom};
use rules::Settings;
use rules::numbers::MOST_LIVE;

// Whether the words from one place up to another are zero: one look at all of them together.
pub fn zeros(words: &[u32], from: usize, to: usize) -> bool
    requires { (from ≤ to) × (to ≤ length words.now) }
    ensures { result ≡ all_below (to - from) (λ k. nat_eq (slice_index words.now (from + k)) 0) }
{
    words[from..to].iter().fold(0, |any, x| any | x) == 0
}

// Whether each live window's size is within limits, and they lead from the bottom of the first up to P.
fn live_fit(words: &[u32], g: Settings, live: u32) -> bool
    requires bounds { Bounds g }
    requires most_live_in_bounds { (pair_at g most_live ≤ length words.now) × ((nth_size words.now g 0).depth ≤ slice_index words.now mark_at) }
    requires live_le_most_live { live ≤ most_live }
    ensures { result ≡ both (all_below live (λ k. size_fit g (nth_size words.now g k))) (bottom_of words.now g live == slice_index words.now top_at) }
{
    let mut top = u64::from(take_bottom(words, g));
    for k in 0..live {
        let size = nth_size(words, g, k);
        if !size_fit(g, size) {
            return false;
        }
        top += u64::from(size.depth);
    }
    top == u64::from(words[TOP])
}

// The same with the pairs beyond, which are zero.
fn pairs_fit(words: &[u32], g: Settings, live: u32) -> bool
    requires bounds { Bounds g }
    requires most_live_in_bounds { (pair_at g most_live ≤ length words.now) × ((nth_size words.now g 0).depth ≤ slice_index words.now mark_at) }
    requires live_le_most_live { (live ≤ most_live) × (live ≡ live_of words.now g) }
    ensures { result ≡ both (all_below most_live (pair_fit words.now g)) (bottom_of words.now g live == slice_index words.now top_at) }
{
    let pairs = windows_at(g) + PAIRS;
    let behind = pairs + PAIR_WORDS * live as usize;
    zeros(words, behind, pairs + PAIR_WORDS * MOST_LIVE as usize) && live_fit(words, g, live)
}

// Whether a queue's windows are fit.
fn sizes_fit(words: &[u32], g: Settings) -> bool
    requires bounds { Bounds g }
    requires most_live_in_bounds { pair_at g most_live ≤ length words.now }
    ensures { result ≡ both (nat_le (slice_index words.now (set_at g)) 1) (both (all (sizes_fit words.now g)) (all (tops_fit words.now g))) }
{
    let live = live_of(words, g);
    (1..=MOST_LIVE).contains(&live)
        && nth_size(words, g, 0).depth <= words[MARK]
        && size_set(words, g) <= 1
        && size_fit(g, next_size(words, g))
        && pairs_fit(words, g, live)
}

// Whether the words of windows are fit, where the edition has them: a stack's are zero.
pub fn windows_fit(words: &[u32], g: Settings) -> bool
    requires bounds { Bounds g }
    requires g_in_bounds { needed g ≤ length words.now }
    ensures { result ≡ windows_fit words.now g }
{
    if !is_windowed(g) {
        return true;
    }
    if g.kind == 0 {
        return sizes_fit(words, g);
    }
    let at = windows_at(g);
    zeros(words, at, at + WINDOWS_WORDS)
}
