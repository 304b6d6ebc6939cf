// The bands of rows that a sub holds: between a row and another, of one window, of windows that follow each other, or of all of them together.
ghost use Rattle.std.specs.Prelude.{true, ◌≡◌, ℕ, ◌+◌, ◌^◌, ◌<◌, ◌≤◌};
ghost use Rattle.bands.specs.Together.{Together, Joins, IsBand, band_within, whole_band};
ghost use Rattle.rules.specs.Fit.{FitPool};
ghost use Rattle.rules.specs.Held.{band_between};
ghost use Rattle.rules.specs.Windows.{has_windows, live_of, nth_size, bottom_of};

use image::{Sub, TOP};
use queue_windows::{has_windows, live_of, nth_size, take_bottom};
use rules::numbers::MOST_LIVE;
use rules::{Settings, Size};

// So many rows above `below`.
#[derive(Clone, Copy, Debug, Default, PartialEq, Eq)]
pub struct Band {
    pub below: u32,
    pub rows: u32,
}

// All live windows together: their lowest bottom, with the cell of the row above it, their highest top, and a number of subs that lie in each of them: all
// where each window is as wide as the pool, else 0.
#[derive(Clone, Copy, Debug, PartialEq, Eq)]
pub struct Reach {
    pub bottom: u32,
    pub cell: u32,
    pub top: u32,
    pub width: u32,
}

// Windows from one on that a sub lies in: the first behind them, and their highest top.
#[derive(Clone, Copy, Debug, PartialEq, Eq)]
pub struct Joined {
    pub end: u32,
    pub top: u32,
}

// The rows above one and up to another: none, where that is not higher.
pub fn between(low: u32, high: u32) -> Band
    ensures { IsBand result (band_between low high) }
{
    Band {
        below: low,
        rows: high.saturating_sub(low),
    }
}

// What a sub holds of a window that lies above `bottom`: nothing, where it is outside the window's width.
pub fn window_band(sub: Sub, j: u32, bottom: u32, size: Size) -> Band
    requires { bottom + size.depth < 2 ^ 32 }
    ensures { IsBand result (band_within j sub.first sub.second bottom size) }
{
    if j < size.width {
        return between(sub.second.max(bottom), sub.first.min(bottom + size.depth));
    }
    Band::default()
}

// The pool's width, where each live window has it, else 0. Their sum tells: none is wider, and the pairs beyond the live ones are zero. It is of all pairs,
// so that no turn of the loop is a guess.
fn common_width(words: &[u32], g: Settings) -> u32
    requires fit_pool { FitPool g words.now }
    requires windows { has_windows g ≡ true }
    ensures { (result ≤ g.width) × ((k : ℕ) → k < live_of words.now g → result ≤ (nth_size words.now g k).width) }
{
    let mut sum = 0;
    for k in 0..MOST_LIVE {
        sum += nth_size(words, g, k).width;
    }
    if sum == live_of(words, g) * g.width {
        return g.width;
    }
    0
}

// All live windows together, or no bounds where windows have no sizes of their own.
pub fn reach_of(words: &[u32], g: Settings) -> Reach
    requires { FitPool g words.now }
    ensures { Together words.now g result }
{
    if has_windows(g) {
        let width = common_width(words, g);
        let bottom = take_bottom(words, g);
        return Reach {
            bottom,
            cell: bottom % g.rows,
            top: words[TOP],
            width,
        };
    }
    Reach {
        bottom: 0,
        cell: 0,
        top: u32::MAX,
        width: g.width,
    }
}

// The windows from `from` on, which lies above `bottom`, that sub `j` lies in, up to the first that it does not lie in.
pub fn joined_from(words: &[u32], g: Settings, j: u32, from: u32, live: u32, bottom: u32) -> Joined
    requires fit_pool { FitPool g words.now }
    requires windows { has_windows g ≡ true }
    requires all_live { live ≡ live_of words.now g }
    requires from_live { from ≤ live }
    requires from_bottom { bottom ≡ bottom_of words.now g from }
    ensures { Joins words.now g j from result.end result.top }
{
    let mut top = bottom;
    for k in from..live {
        let size = nth_size(words, g, k);
        if size.width <= j {
            return Joined { end: k, top };
        }
        top += size.depth;
    }
    Joined { end: live, top }
}

// All that a sub holds which lies within that width.
pub fn whole_band(g: Settings, r: Reach, sub: Sub) -> Band
    ensures { IsBand result (whole_band g r sub.first sub.second) }
{
    if g.kind == 0 {
        return between(sub.second.max(r.bottom), sub.first.min(r.top));
    }
    between(0, sub.first)
}
