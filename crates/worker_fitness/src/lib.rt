// The workers: worker by worker, their words.
#![tactic(auto)]

ghost use Rattle.std.specs.Prelude.{true, ◌≡◌, ℕ, Bool, ◌+◌, ◌<◌, ◌≤◌, eqb, length};
ghost use Rattle.worker_fitness.specs.Words.{word_fit};
ghost use Rattle.laws.specs.Choice.{cond, both, all_below};
ghost use Rattle.rules.specs.Fit.{phase_fit, past_window, worker_fit, workers_fit};
ghost use Rattle.rules.specs.Layout.{needed, worker_at, worker_words};
ghost use Rattle.rules.specs.Limits.{Bounds, windowed};
ghost use Rattle.rules.specs.Make.{shipped};
ghost use Rattle.rules.specs.Windows.{has_windows};
ghost use Rattle.rules.specs.Worker.{slot_at};

use image::{BOTTOM, INDEX, PHASE, SCAN, SEEN_WIDTH, WORKER_WORDS, is_windowed, worker_at};
use queue_windows::has_windows;
use rules::Settings;
use rules::numbers::{
    COMMIT, CONFIRM, IDLE, READ, SHIFT, TAKE_COMMIT, TAKE_CONFIRM, TAKE_READ, TAKE_SHIFT,
    TAKE_WINDOW, WINDOW,
};

// The phases of a queue, a bit each.
const QUEUE_PHASES: u32 = 1 << IDLE
    | 1 << WINDOW
    | 1 << READ
    | 1 << COMMIT
    | 1 << SHIFT
    | 1 << TAKE_WINDOW
    | 1 << TAKE_READ
    | 1 << TAKE_COMMIT
    | 1 << TAKE_SHIFT
    | 1 << TAKE_CONFIRM;

// Whether `x` is a phase of a queue: one look at the word of bits.
#[tactic(auto, using(crate::proofs::Phases::queue_phases))]
fn queue_phase_fit(x: u32) -> bool
    ensures { result ≡ phase_fit 0 x }
{
    x <= TAKE_CONFIRM && QUEUE_PHASES >> x & 1 == 1
}

// Whether `x` is a phase of a pool of the kind.
#[tactic(auto, using(crate::proofs::Phases::stack_phases))]
fn phase_fit(kind: u32, x: u32) -> bool
    ensures { result ≡ phase_fit kind x }
{
    if kind == 0 {
        queue_phase_fit(x)
    } else {
        matches!(x, IDLE..=CONFIRM | TAKE_WINDOW..=TAKE_CONFIRM)
    }
}

// Whether a worker in phase `x` is past its window phase, and so has seen a window.
#[tactic(auto, using(crate::proofs::Phases::window_phases))]
pub fn past_window(x: u32) -> bool
    ensures { result ≡ past_window x }
{
    !matches!(x, IDLE | WINDOW | TAKE_WINDOW)
}

// The width that index and scan of the worker at `at`, in phase `x`, lie below: that of the window that it has seen, or the pool's. The word is
// read before the phase is asked for, so that no branch is on a worker's phase.
fn width_of(words: &[u32], g: Settings, at: usize, x: u32) -> u32
    requires { at + worker_words g.edition ≤ length words.now }
    ensures { result ≡ cond (both (has_windows g) (past_window x)) (slot_at g words.now at).width g.width }
{
    if has_windows(g) {
        let seen = words[at + SEEN_WIDTH];
        if past_window(x) {
            return seen;
        }
    }
    g.width
}

// Whether a stack's worker has seen no window, where the edition has words for one.
fn stack_unseen(words: &[u32], g: Settings, at: usize) -> bool
    requires { at + worker_words g.edition ≤ length words.now }
    ensures { result ≡ cond (windowed g) (cond (eqb g.kind 0) true (both (eqb (slot_at g words.now at).bottom 0) (eqb (slot_at g words.now at).width 0))) true }
{
    if !is_windowed(g) || g.kind == 0 {
        return true;
    }
    (words[at + BOTTOM] == 0) & (words[at + SEEN_WIDTH] == 0)
}

// Whether the worker at `at` is fit: the tests are made together, so that no branch is on a worker's words.
#[tactic(auto, using(rules::proofs::Workers::slot_within))]
fn worker_fit(words: &[u32], g: Settings, at: usize) -> bool
    requires { at + worker_words g.edition ≤ length words.now }
    ensures { result ≡ worker_fit g (slot_at g words.now at) }
{
    let x = words[at];
    let width = width_of(words, g, at, x);
    let inside = (words[at + INDEX] < width) & (words[at + SCAN] < width);
    phase_fit(g.kind, x) & ((width <= g.width) & (inside & stack_unseen(words, g, at)))
}

// Whether the worker at `at` is idle and fit: the tests are made together, so that one branch is on an idle worker's words.
#[tactic(auto, using(rules::proofs::Workers::slot_within))]
fn idle_fit(words: &[u32], g: Settings, at: usize) -> bool
    requires { at + worker_words g.edition ≤ length words.now }
    ensures { result ≡ true → worker_fit g (slot_at g words.now at) ≡ true }
{
    let inside = (words[at + INDEX] < g.width) & (words[at + SCAN] < g.width);
    (words[at] == IDLE) & inside & stack_unseen(words, g, at)
}

// The first worker from `first` on that is not idle and fit, or how many there are. The idle ones, which are many as a rule, are passed in a short loop, and a
// busy one is told by its phase.
fn not_idle_from(words: &[u32], g: Settings, first: u32) -> u32
    requires bounds { Bounds g }
    requires g_in_bounds { (needed g ≤ length words.now) × (first ≤ g.workers) }
    ensures { (first ≤ result) × (result ≤ g.workers) × (all_below first (λ i. worker_fit g (slot_at g words.now (worker_at g i))) ≡ true → all_below result (λ i. worker_fit g (slot_at g words.now (worker_at g i))) ≡ true) }
{
    for i in first..g.workers {
        let at = worker_at(g, i);
        if words[at] != IDLE {
            return i;
        }
        if !idle_fit(words, g, at) {
            return i;
        }
    }
    g.workers
}

// Whether every worker is fit, in any edition.
// Stays: a turn goes on behind the idle workers, which have the short loop: where one loop had both tests, the compiler asked at each worker what is the same of
// all, and a size call on a pool of 32 idle ones took up to 1.35 times as long.
pub fn workers_fit(words: &[u32], g: Settings) -> bool
    requires bounds { Bounds g }
    requires g_in_bounds { needed g ≤ length words.now }
    ensures { result ≡ workers_fit words.now g }
{
    let mut i = not_idle_from(words, g, 0);
    while i < g.workers {
        if !worker_fit(words, g, worker_at(g, i)) {
            return false;
        }
        i = not_idle_from(words, g, i + 1);
    }
    true
}

// Whether word `k` of a worker is fit, whose index and scan lie below a width.
#[tactic(auto, using(laws::specs::Tests::tests), unfolding(crate::specs::Words::word_fit, laws::specs::Choice::cond))]
fn word_fit(g: Settings, width: u32, k: usize, x: u32) -> bool
    ensures { result ≡ word_fit g width k x }
{
    match k {
        PHASE => phase_fit(g.kind, x),
        INDEX | SCAN => x < width,
        SEEN_WIDTH if g.kind == 0 => width <= g.width,
        BOTTOM.. if g.kind != 0 => x == 0,
        _ => true,
    }
}

// Whether every word of every worker is fit, in the shipped edition.
// Stays: loops of its own, both left by label with what was found: paper 01 names the form.
pub fn every_fit(words: &[u32], g: Settings) -> bool
    requires bounds { Bounds g }
    requires g_in_bounds { (needed g ≤ length words.now) × (g.edition ≡ shipped) }
    ensures { result ≡ workers_fit words.now g }
{
    let mut fit = true;
    'workers: for i in 0..g.workers {
        let at = worker_at(g, i);
        if idle_fit(words, g, at) {
            continue;
        }
        let width = width_of(words, g, at, words[at]);
        for k in 0..WORKER_WORDS {
            if !word_fit(g, width, k, words[at + k]) {
                fit = false;
                break 'workers;
            }
        }
    }
    fit
}
