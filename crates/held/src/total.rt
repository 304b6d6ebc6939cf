// The items held by a pool.
ghost use Rattle.std.specs.Prelude.{true, ◌≡◌, ◌*◌, ◌≤◌, ◌<◌, length};
ghost use Rattle.rules.specs.Fit.{FitPool};
ghost use Rattle.rules.specs.Held.{held_sub, held_items, held_of};
ghost use Rattle.rules.specs.Limits.{most_rows, most_live};
ghost use Rattle.rules.specs.Make.{shipped};
ghost use Rattle.rules.specs.Windows.{has_windows};

use bands::{reach_of, whole_band, window_band};
use fitness::fit_settings;
use image::sub_of;
use queue_windows::{live_of, nth_size, take_bottom};
use rules::Settings;

// How many rows sub `j` holds, window by window, from the lowest on.
fn windows_held(words: &[u32], g: Settings, j: u32) -> u32
    requires fit_pool { FitPool g words.now }
    requires windows { has_windows g ≡ true }
    requires sub_in { j < g.width }
    ensures { (result ≡ length (held_sub words.now g j)) × (result ≤ most_live * most_rows) }
{
    let sub = sub_of(words, j);
    let mut bottom = take_bottom(words, g);
    let mut n = 0;
    for k in 0..live_of(words, g) {
        let size = nth_size(words, g, k);
        n += window_band(sub, j, bottom, size).rows;
        bottom += size.depth;
    }
    n
}

// The items held by a fit pool, sub by sub: those that lie within all windows have one band.
// Stays: the distance has two such loops, over other counts; a function for both would need a longer contract, on two closures.
fn fit_items(words: &[u32], g: Settings) -> u32
    requires { FitPool g words.now }
    ensures { result ≡ length (held_items words.now g) }
{
    let r = reach_of(words, g);
    let mut n = 0;
    for j in 0..r.width {
        n += whole_band(g, r, sub_of(words, j)).rows;
    }
    for j in r.width..g.width {
        n += windows_held(words, g, j);
    }
    n
}

// The items held; none by words that are no fit pool.
pub fn items(words: &[u32]) -> u32
    ensures { result ≡ held_of shipped words.now }
{
    match fit_settings(words) {
        Ok(g) => fit_items(words, g),
        Err(_) => 0,
    }
}
