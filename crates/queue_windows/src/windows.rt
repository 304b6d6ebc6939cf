// What the words of a queue's windows say: the size of the next put window, whether one was set, how many windows are live, and the size of each.
ghost use Rattle.std.specs.Prelude.{◌≡◌, ◌<◌, ◌≤◌, length, get_or};
ghost use Rattle.rules.specs.Layout.{mark_at, set_at, pair_at};
ghost use Rattle.rules.specs.Limits.{Bounds, most_live};
ghost use Rattle.rules.specs.Windows.{has_windows, next_size, live_of, nth_size, bottom_of};

use image::{
    LIVE, MARK, NEXT_DEPTH, NEXT_WIDTH, PAIR_WORDS, PAIRS, SIZE_SET, is_windowed, windows_at,
};
use rules::{Settings, Size};

// Whether the pool is a queue of an edition whose windows have sizes of their own.
pub fn has_windows(g: Settings) -> bool
    ensures { result ≡ has_windows g }
{
    is_windowed(g) && g.kind == 0
}

// Whether a size was set, by 1.
pub fn size_set(words: &[u32], g: Settings) -> u32
    requires bounds { Bounds g }
    requires most_live_in_bounds { pair_at g most_live ≤ length words.now }
    ensures { result ≡ get_or words.now (set_at g) 0 }
{
    words[windows_at(g) + SIZE_SET]
}

// How many windows are live.
pub fn live_of(words: &[u32], g: Settings) -> u32
    requires bounds { Bounds g }
    requires most_live_in_bounds { pair_at g most_live ≤ length words.now }
    ensures { result ≡ live_of words.now g }
{
    words[windows_at(g) + LIVE]
}

// The size of the next put window.
pub fn next_size(words: &[u32], g: Settings) -> Size
    requires bounds { Bounds g }
    requires most_live_in_bounds { pair_at g most_live ≤ length words.now }
    ensures { result ≡ next_size words.now g }
{
    let at = windows_at(g);
    Size {
        width: words[at + NEXT_WIDTH],
        depth: words[at + NEXT_DEPTH],
    }
}

// The size of the live window `k`, from 0.
pub fn nth_size(words: &[u32], g: Settings, k: u32) -> Size
    requires bounds { Bounds g }
    requires most_live_in_bounds { (pair_at g most_live ≤ length words.now) × (k < most_live) }
    ensures { result ≡ nth_size words.now g k }
{
    let at = windows_at(g) + PAIRS + PAIR_WORDS * (k as usize);
    Size {
        width: words[at],
        depth: words[at + 1],
    }
}

// The bottom of the take window, whose top is T.
#[tactic(auto, unfolding(rules::specs::Windows::bottom_of))]
pub fn take_bottom(words: &[u32], g: Settings) -> u32
    requires bounds { Bounds g }
    requires most_live_in_bounds { (pair_at g most_live ≤ length words.now) × ((nth_size words.now g 0).depth ≤ get_or words.now mark_at 0) }
    ensures { result ≡ bottom_of words.now g 0 }
{
    words[MARK] - nth_size(words, g, 0).depth
}
