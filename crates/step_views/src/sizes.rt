// The sizes of a queue's windows, as a step reads them: those that its phase asks for. In a pool whose windows have no sizes of their own, each has the
// pool's.
ghost use Rattle.std.specs.Prelude.{true, false, ◌≡◌};
ghost use Rattle.phases.specs.Late.{Late};
ghost use Rattle.rules.specs.Fit.{FitPool};
ghost use Rattle.rules.specs.Windows.{has_windows, sizes_of};
ghost use Rattle.step_views.specs.Asked.{no_sizes, only_take, look_asks, commit_asks, shift_asks, asked_by};

use queue_windows::{has_windows, live_of, next_size, nth_size};
use rules::{Phase, Settings, Side, Sizes};
use worker::size_of;

pub fn no_sizes() -> Sizes
    ensures { result ≡ no_sizes }
{
    Sizes::default()
}

// What `own` reads of a queue's windows, where these have sizes of their own, else `pool`.
fn own_or<T: Drop, F: FnOnce() -> T>(g: Settings, pool: T, own: F) -> T
    requires { has_windows g ≡ true → F.pre own }
    ensures of_windows { has_windows g ≡ true → F.post own result }
    ensures of_pool { has_windows g ≡ false → result ≡ pool }
{
    if has_windows(g) { own() } else { pool }
}

fn only_take(words: &[u32], g: Settings) -> Sizes
    requires { FitPool g words.now }
    ensures { result ≡ only_take (sizes_of words.now g).take }
{
    Sizes {
        take: own_or(g, size_of(g), || nth_size(words, g, 0)),
        ..no_sizes()
    }
}

// For a worker that looks at a window.
pub fn look_sizes(words: &[u32], g: Settings, side: Side) -> Sizes
    requires { FitPool g words.now }
    ensures { result ≡ look_asks side (sizes_of words.now g) }
{
    match side {
        Side::Putting => Sizes {
            put: own_or(g, size_of(g), || nth_size(words, g, live_of(words, g) - 1)),
            ..no_sizes()
        },
        Side::Taking => only_take(words, g),
    }
}

// For a commit.
pub fn commit_sizes(words: &[u32], g: Settings, side: Side) -> Sizes
    requires { FitPool g words.now }
    ensures { result ≡ commit_asks side (sizes_of words.now g) }
{
    match side {
        Side::Putting => only_take(words, g),
        Side::Taking => no_sizes(),
    }
}

// For a window that moves on.
fn shift_sizes(words: &[u32], g: Settings, side: Side) -> Sizes
    requires { FitPool g words.now }
    ensures { result ≡ shift_asks side (sizes_of words.now g) }
{
    match side {
        Side::Putting => Sizes {
            take: own_or(g, size_of(g), || nth_size(words, g, 0)),
            next: own_or(g, size_of(g), || next_size(words, g)),
            live: own_or(g, 0, || live_of(words, g)),
            ..no_sizes()
        },
        Side::Taking => Sizes {
            after: own_or(g, size_of(g), || nth_size(words, g, 1)),
            ..no_sizes()
        },
    }
}

// Those that the rule of a late phase asks for, and no others.
pub fn sizes_for(words: &[u32], g: Settings, phase: Phase) -> Sizes
    requires fit_pool { FitPool g words.now }
    requires late { Late phase }
    ensures { result ≡ asked_by phase (sizes_of words.now g) }
{
    match phase {
        Phase::QueueShift { side, .. } => shift_sizes(words, g, side),
        Phase::Idle
        | Phase::Check { .. }
        | Phase::StackShift { .. }
        | Phase::QueueConfirm { .. }
        | Phase::StackConfirm { .. } => no_sizes(),
        // Not late: no caller has these.
        Phase::Window(_)
        | Phase::QueuePutRead { .. }
        | Phase::QueueTakeRead { .. }
        | Phase::StackRead { .. }
        | Phase::QueueCommit { .. }
        | Phase::StackCommit { .. } => no_sizes(),
    }
}
