// Which fit pools move: a queue that is given windows of their own sizes, or that had them, only where the two editions tell the same of it; any other pool.
ghost use Rattle.std.specs.Prelude.{◌≡◌, true, ◌≤◌, length};
ghost use Rattle.laws.specs.Choice.{all, all_below};
ghost use Rattle.rules.specs.Fit.{FitPool, sub_fit};
ghost use Rattle.rules.specs.Layout.{first_of, second_of, workers_at, worker_at, pair_at, needed};
ghost use Rattle.rules.specs.Limits.{Bounds, most_live};
ghost use Rattle.rules.specs.Make.{in_edition};
ghost use Rattle.turnaround.specs.Move.{on_limits, seen_on, seen_back, back_limits, may_move};
ghost use Rattle.rules.specs.Windows.{has_windows, nth_size};
ghost use Rattle.rules.specs.Worker.{slot_at};

use image::{MARK, TOP, worker_at};
use queue_windows::{has_windows, live_of, next_size, nth_size, size_set};
use rules::numbers::MOST_LIVE;
use rules::{Settings, Size, Slot};
use shared_fitness::sub_fit;
use slots::load;
use worker_fitness::past_window;

// Whether the window that a worker has seen moves on: it is as deep as the pool at least.
#[tactic(auto, unfolding(laws::specs::Choice::cond))]
fn seen_on(g: Settings, s: Slot) -> bool
    ensures { result ≡ seen_on g s }
{
    !past_window(s.number) || g.depth <= s.window
}

// Whether it moves back: it is of the pool's size.
#[tactic(auto, unfolding(laws::specs::Choice::cond))]
fn seen_back(g: Settings, s: Slot) -> bool
    ensures { result ≡ seen_back g s }
{
    !past_window(s.number) || s.width == g.width && s.bottom.checked_add(g.depth) == Some(s.window)
}

// Whether every sub fits, by the edition of the settings, over a bottom of the take window.
fn subs_move(from: &[u32], h: Settings, bottom: u32) -> bool
    requires bounds { Bounds h }
    requires h_in_bounds { workers_at h ≤ length from.now }
    ensures { result ≡ all_below h.width (λ j. sub_fit h bottom (first_of from.now j) (second_of from.now j)) }
{
    (0..h.width).all(|j| sub_fit(from, h, bottom, j))
}

// Whether a queue moves on to windows of their own sizes.
fn may_on(from: &[u32], g: Settings, h: Settings) -> bool
    requires bounds { Bounds g }
    requires g_in_bounds { needed g ≤ length from.now }
    requires same_pool { h ≡ in_edition h.edition g }
    ensures { result ≡ all (on_limits from.now g h) }
{
    let top = from[TOP];
    let mark = from[MARK];
    mark <= top
        && top - mark <= (MOST_LIVE - 1) * g.depth
        && (top - mark) % g.depth == 0
        && g.depth <= mark
        && (0..g.workers).all(|i| seen_on(g, load(from, g, worker_at(g, i))))
        && subs_move(from, h, mark - g.depth)
}

// Whether a queue moves back from windows of their own sizes.
fn may_back(from: &[u32], g: Settings, h: Settings) -> bool
    requires fit_pool { FitPool g from.now }
    requires windows_own { has_windows g ≡ true }
    requires same_pool { h ≡ in_edition h.edition g }
    ensures { result ≡ all (back_limits from.now g h) }
{
    let own = Size {
        width: g.width,
        depth: g.depth,
    };
    size_set(from, g) == 0
        && g.rows % g.depth == 0
        && next_size(from, g) == own
        && (0..live_of(from, g)).all(|k| nth_size(from, g, k) == own)
        && (0..g.workers).all(|i| seen_back(g, load(from, g, worker_at(g, i))))
        && subs_move(from, h, from[MARK].saturating_sub(h.depth))
}

// Whether a fit pool moves to the edition of the settings.
#[tactic(auto, unfolding(laws::specs::Choice::cond, turnaround::specs::Move::may_move))]
pub fn may_move(from: &[u32], g: Settings, h: Settings) -> bool
    requires fit_pool { FitPool g from.now }
    requires same_pool { h ≡ in_edition h.edition g }
    ensures { result ≡ may_move from.now g h }
{
    if has_windows(h) {
        may_on(from, g, h)
    } else if has_windows(g) {
        may_back(from, g, h)
    } else {
        true
    }
}
