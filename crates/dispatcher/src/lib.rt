// Turns for the workers: steps of the busy ones, round and round by number, up to the first final answer.
#![tactic(auto)]

ghost use Rattle.std.specs.Prelude.{Ok, ◌≡◌, ◌<◌, ◌≤◌, length};
ghost use Rattle.dispatcher.specs.Moved.{window_moved};
ghost use Rattle.laws.specs.Choice.{cond};
ghost use Rattle.rules.specs.Fit.{Unfit, Fit, checked_of, fitness_of};
ghost use Rattle.rules.specs.Layout.{head_words, needed};
ghost use Rattle.rules.specs.Limits.{Bounds};
ghost use Rattle.rounds.specs.Dispatch.{dispatched, turn_from, ended_of, turns_of, fit_dispatch, dispatch_of};
ghost use Rattle.rules.specs.Make.{shipped};

use calls::next_answer;
use fitness::{check, fit_settings};
use image::{MARK, TOP, worker_at};
use rules::numbers::SHIPPED;
use rules::{Dispatched, Refusal, Settings};
use slots::idle_at;
use step::answers::final_answer;

// The first busy worker from `from` on. The words need not be a fit pool.
fn turn_from(words: &[u32], g: Settings, from: u32) -> Option<u32>
    requires bounds { Bounds g }
    requires g_in_bounds { (needed g ≤ length words.now) × (from < g.workers) }
    ensures { result ≡ turn_from words.now g from }
{
    let mut i = from;
    for _passed in 0..g.workers {
        if !idle_at(words, worker_at(g, i)) {
            return Some(i);
        }
        i = (i + 1) % g.workers;
    }
    None
}

// What the turns come to with an answer of worker `j`, by its number, which is not 0, and its five fields.
// Stays: a number and fields, as the one function behind all steps hands them on (crate calls).
fn ended(j: u32, n: u32, five: [u32; 5]) -> Result<Dispatched, Refusal>
    ensures { result ≡ ended_of j n five }
{
    if n <= 4 {
        Ok(Dispatched::Finished {
            worker: j,
            answer: final_answer(n, five),
        })
    } else {
        Err(Refusal::numbered(n))
    }
}

// The check of a pool again, where one of a queue's windows has moved on from these tops. In edition 2 a window that moves
// on can leave a damaged pool unfit: its subs are then held to another bottom, and a top can wrap.
fn check_after(words: &[u32], g: Settings, top: u32, mark: u32) -> Result<(), Refusal>
    requires { head_words ≤ length words.now }
    ensures { result ≡ cond (window_moved words.now g top mark) (fitness_of (checked_of shipped words.now)) (Ok tt) }
{
    if g.kind == 0 {
        if (words[TOP] != top) | (words[MARK] != mark) {
            return check(words, SHIPPED);
        }
    }
    Ok(())
}

// What is left of the turns, from worker `i` on, of words that are no fit pool: the next step is refused, if there is one.
fn stopped(
    words: &[u32],
    g: Settings,
    i: u32,
    left: u32,
    refusal: Refusal,
) -> Result<Dispatched, Refusal>
    requires bounds { Bounds g }
    requires g_in_bounds { (needed g ≤ length words.now) × (i < g.workers) }
    requires unfit { checked_of g.edition words.now ≡ Unfit refusal }
    ensures { dispatched result words.now ≡ turns_of words.now g i left }
{
    match turn_from(words, g, i) {
        None => Ok(Dispatched::NoneBusy),
        Some(_) => {
            if left == 0 {
                Ok(Dispatched::RanOut { next: i })
            } else {
                Err(refusal)
            }
        }
    }
}

// Turns from worker `first` of a fit pool on, up to a count of steps. A step that answers 0 and moves no window on leaves the pool fit, so it is checked
// again only where one was.
fn turns(words: &mut [u32], g: Settings, first: u32, steps: u32) -> Result<Dispatched, Refusal>
    requires fit { checked_of g.edition words.old ≡ Fit g }
    requires edition_value { g.edition ≡ shipped }
    requires first_lt_workers { first < g.workers }
    ensures { dispatched result words.new ≡ turns_of words.old g first steps }
{
    let mut i = first;
    let mut five = [0; 5];
    for made in 0..steps {
        let Some(j) = turn_from(words, g, i) else {
            return Ok(Dispatched::NoneBusy);
        };
        let top = words[TOP];
        let mark = words[MARK];
        let n = next_answer(words, j, &mut five);
        if n != 0 {
            return ended(j, n, five);
        }
        i = (j + 1) % g.workers;
        if let Err(refusal) = check_after(words, g, top, mark) {
            return stopped(words, g, i, steps - made - 1, refusal);
        }
    }
    match turn_from(words, g, i) {
        None => Ok(Dispatched::NoneBusy),
        Some(_) => Ok(Dispatched::RanOut { next: i }),
    }
}

// Turns from worker `i` of a fit pool on.
fn fit_dispatch(words: &mut [u32], g: Settings, i: u32, steps: u32) -> Result<Dispatched, Refusal>
    requires fit { checked_of g.edition words.old ≡ Fit g }
    requires edition_value { g.edition ≡ shipped }
    ensures { dispatched result words.new ≡ fit_dispatch words.old g i steps }
{
    if g.workers <= i {
        return Err(Refusal::NoSuchWorker);
    }
    turns(words, g, i, steps)
}

// Steps the busy workers round and round by number, from `worker` on, up to `steps` steps or the first final answer.
pub fn dispatch(words: &mut [u32], worker: u32, steps: u32) -> Result<Dispatched, Refusal>
    ensures { dispatched result words.new ≡ dispatch_of shipped words.old worker steps }
{
    let g = fit_settings(words)?;
    fit_dispatch(words, g, worker, steps)
}
