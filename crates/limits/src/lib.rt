// The limits of the settings, and of a window's size.
#![tactic(auto)]

ghost use Rattle.std.specs.Prelude.{◌≡◌, ◌≤◌};
ghost use Rattle.laws.specs.Choice.{all};
ghost use Rattle.rules.specs.Limits.{queue_limits, settings_fit, size_fit};

use image::is_windowed;
use rules::numbers::{DEEPEST, MOST_CELLS, MOST_ROWS, MOST_WORKERS, WIDEST};
use rules::{Settings, Size};

// Whether a queue's settings are within the limits that it has beside all pools'. Where windows have sizes of their own there is no remainder to take.
#[tactic(auto, unfolding(laws::specs::Choice::cond))]
fn queue_fit(g: Settings) -> bool
    requires { 1 ≤ g.depth }
    ensures { result ≡ all (queue_limits g) }
{
    g.shift == g.depth && (is_windowed(g) || g.rows % g.depth == 0)
}

// Whether settings are within limits.
// Stays: comparisons: where `contains` of a range stands among the tests, the proof that they are the list's stays open.
#[tactic(auto, unfolding(laws::specs::Choice::cond, rules::specs::Limits::settings_fit))]
pub fn settings_fit(g: Settings) -> bool
    ensures { result ≡ settings_fit g }
{
    g.kind <= 1
        && (1 <= g.width && g.width <= WIDEST)
        && (1 <= g.depth && g.depth <= DEEPEST)
        && (1 <= g.shift && g.shift <= g.depth)
        && (2 * g.depth <= g.rows && g.rows <= MOST_ROWS)
        && (1 <= g.workers && g.workers <= MOST_WORKERS)
        && g.width * g.rows <= MOST_CELLS
        && g.stride < g.width
        && (g.kind != 0 || queue_fit(g))
}

// Whether a size is within the limits of a window's.
// Stays: `&`, as a call asks this of each live window, and no branch is then on a word of the pool.
#[tactic(auto, using(crate::proofs::Half::half, laws::specs::Looks::and_both), unfolding(rules::specs::Limits::size_fit))]
pub fn size_fit(g: Settings, size: Size) -> bool
    ensures { result ≡ size_fit g size }
{
    let Size { width, depth } = size;
    (1 <= width)
        & ((width <= g.width) & ((1 <= depth) & ((depth <= DEEPEST) & (depth <= g.rows / 2))))
}
