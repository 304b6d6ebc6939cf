// The subs: sub by sub, their two words.
ghost use Rattle.std.specs.Prelude.{◌≡◌, ◌+◌, ◌<◌, ◌≤◌, true, length};
ghost use Rattle.laws.specs.Choice.{cond};
ghost use Rattle.rules.specs.Fit.{queue_sub_fit, sub_fit, subs_fit, windows_fit};
ghost use Rattle.rules.specs.Layout.{first_of, second_of, workers_at, needed};
ghost use Rattle.rules.specs.Limits.{Bounds};
ghost use Rattle.rules.specs.Windows.{has_windows, bottom_of};

use crate::fours::all_in_fours;
use image::sub_of;
use queue_windows::{has_windows, take_bottom};
use rules::Settings;
use worker::level_of;

// Whether a queue's sub of these last rows is fit. One comparison tells whether the last put row is above the level by 1 to R: were it not
// above, the difference would wrap past every number of rows.
fn queue_fit(g: Settings, bottom: u32, put: u32, taken: u32) -> bool
    ensures { result ≡ queue_sub_fit g bottom put taken }
{
    let level = level_of(g, taken, bottom);
    let above = u64::from(put).wrapping_sub(u64::from(level) + 1);
    (put == taken) | (above < u64::from(g.rows))
}

// Whether sub `j` is fit. Each kind reads the words for itself: read before the test, they would have the compiler do both
// tests at every sub.
pub fn sub_fit(words: &[u32], g: Settings, bottom: u32, j: u32) -> bool
    requires { (workers_at g ≤ length words.now) × (j < g.width) }
    ensures { result ≡ sub_fit g bottom (first_of words.now j) (second_of words.now j) }
{
    if g.kind == 0 {
        let sub = sub_of(words, j);
        queue_fit(g, bottom, sub.first, sub.second)
    } else {
        sub_of(words, j).first <= g.rows
    }
}

// The bottom that the subs are held to: the take window's, where there are windows.
fn lowest(words: &[u32], g: Settings) -> u32
    requires bounds { Bounds g }
    requires g_in_bounds { (needed g ≤ length words.now) × (windows_fit words.now g ≡ true) }
    ensures { result ≡ cond (has_windows g) (bottom_of words.now g 0) 0 }
{
    if has_windows(g) {
        take_bottom(words, g)
    } else {
        0
    }
}

// Whether each sub is fit.
pub fn subs_fit(words: &[u32], g: Settings) -> bool
    requires bounds { Bounds g }
    requires g_in_bounds { (needed g ≤ length words.now) × (windows_fit words.now g ≡ true) }
    ensures { result ≡ subs_fit words.now g }
{
    let bottom = lowest(words, g);
    all_in_fours(g.width, |j| sub_fit(words, g, bottom, j))
}
