// A move of a pool from one edition to another, from a lent area into another, for all words of both. The source is lent for reading.
#![tactic(auto)]

ghost use Rattle.std.specs.Prelude.{◌≡◌, ◌+◌, ◌<◌, ◌≤◌, length, drop};
ghost use Rattle.std.proofs.Math.Seq.{paste};
ghost use Rattle.rules.specs.Answers.{out};
ghost use Rattle.rules.specs.Fit.{source_checked, FitPool};
ghost use Rattle.rules.specs.Layout.{worker_words, needed};
ghost use Rattle.rules.specs.Make.{in_edition};
ghost use Rattle.rules.specs.NewWord.{new_word};
ghost use Rattle.turnaround.specs.Move.{leads, word_in, worker_moved, workers_moved, head_moved, cells_moved, moved_words, fit_move, checked_move, move_of, Areas};

use bridge::{may_move, move_windows};
use fitness::check_source;
use image::{
    BOTTOM, CELL_WORDS, EDITION, SEEN_WIDTH, in_edition, settings, sub_at, sub_cells_at,
    words_needed, worker_at, worker_words,
};
use rules::numbers::SHIPPED;
use rules::{Answer, Refusal, Settings, Slot};
use slots::load;
use worker_fitness::past_window;

// A new word `k` of a worker: of the window that a queue's worker has seen, or 0.
#[tactic(auto, unfolding(rules::specs::NewWord::new_word, laws::specs::Choice::cond))]
fn new_word(g: Settings, s: Slot, k: usize) -> u32
    ensures { result ≡ new_word g s k }
{
    if g.kind != 0 || !past_window(s.number) {
        return 0;
    }
    match k {
        BOTTOM => s.window.saturating_sub(g.depth),
        SEEN_WIDTH => g.width,
        _ => 0,
    }
}

// Word `k` of worker `i`; one that the edition does not have is new.
#[tactic(auto, unfolding(laws::specs::Choice::cond))]
fn word_in(from: &[u32], g: Settings, i: u32, k: usize) -> u32
    requires { (needed g ≤ length from.now) × (i < g.workers) }
    ensures { result ≡ word_in from.now g i k }
{
    let at = worker_at(g, i);
    if k < worker_words(g.edition) {
        from[at + k]
    } else {
        new_word(g, load(from, g, at), k)
    }
}

// The words of worker `i`.
fn move_worker(from: &[u32], g: Settings, to: &mut [u32], h: Settings, i: u32)
    requires areas { Areas from.now g to.old h }
    requires i_lt_workers { i < g.workers }
    ensures { to.new ≡ worker_moved from.now g to.old h i (worker_words h.edition) }
{
    let at = worker_at(h, i);
    for k in 0..worker_words(h.edition) {
        to[at + k] = word_in(from, g, i, k);
    }
}

fn move_workers(from: &[u32], g: Settings, to: &mut [u32], h: Settings)
    requires { Areas from.now g to.old h }
    ensures { to.new ≡ workers_moved from.now g to.old h g.workers }
{
    for i in 0..g.workers {
        move_worker(from, g, to, h, i);
    }
}

// Copies `n` words of the source, from its word `at` on, to where the target has its word `start`.
// Stays a loop: of the standard library's copy the compiler makes a call of C's `memmove`, which the archive for C would then want from outside.
fn copy(from: &[u32], at: usize, to: &mut [u32], start: usize, n: usize)
    requires { (at + n ≤ length from.now) × (start + n ≤ length to.old) }
    ensures { to.new ≡ paste to.old start (drop at from.now) n }
{
    for k in 0..n {
        to[start + k] = from[at + k];
    }
}

// The head and the subs, but for the edition.
fn move_head(from: &[u32], g: Settings, to: &mut [u32], h: Settings)
    requires { Areas from.now g to.old h }
    ensures { to.new ≡ head_moved from.now g to.old h }
{
    copy(from, 0, to, 0, sub_at(g.width));
    to[EDITION] = h.edition;
}

fn move_cells(from: &[u32], g: Settings, to: &mut [u32], h: Settings)
    requires { Areas from.now g to.old h }
    ensures { to.new ≡ cells_moved from.now g to.old h }
{
    let n = CELL_WORDS * (g.width as usize * g.rows as usize);
    copy(from, sub_cells_at(g, 0), to, sub_cells_at(h, 0), n);
}

fn move_words(from: &[u32], g: Settings, to: &mut [u32], h: Settings)
    requires { Areas from.now g to.old h }
    ensures { to.new ≡ moved_words from.now g to.old h }
{
    move_head(from, g, to, h);
    move_workers(from, g, to, h);
    move_cells(from, g, to, h);
    move_windows(from, to, h);
}

// Moves a fit pool to an edition.
fn fit_move(from: &[u32], g: Settings, to: &mut [u32], edition: u32) -> Result<Answer, Refusal>
    requires { FitPool g from.now }
    ensures { out result to.new ≡ fit_move from.now g to.old (in_edition edition g) }
{
    let h = in_edition(g, edition);
    if !may_move(from, g, h) {
        return Err(Refusal::Excepted);
    }
    if to.len() < words_needed(h) {
        return Err(Refusal::TooFewWords);
    }
    move_words(from, g, to, h);
    Ok(Answer::Moving)
}

// Moves a pool that is fit in one edition to another.
fn checked_move(from: &[u32], old: u32, to: &mut [u32], new: u32) -> Result<Answer, Refusal>
    ensures { out result to.new ≡ checked_move new from.now (source_checked old from.now) to.old }
{
    check_source(from, old)?;
    fit_move(from, settings(from), to, new)
}

// Whether a move leads from one edition to the other: an edition on, or one back.
pub fn leads_on(old: u32, new: u32) -> bool
    ensures { result ≡ leads old new }
{
    old <= SHIPPED && new <= SHIPPED && old.abs_diff(new) == 1
}

// Moves a pool of one edition to another. No move leads past an edition.
#[tactic(auto, unfolding(turnaround::specs::Move::move_of, laws::specs::Choice::cond))]
pub fn move_pool(from: &[u32], old: u32, to: &mut [u32], new: u32) -> Result<Answer, Refusal>
    ensures { out result to.new ≡ move_of old new from.now to.old }
{
    if !leads_on(old, new) {
        return Err(Refusal::WrongEdition);
    }
    checked_move(from, old, to, new)
}
