// Begin put and begin take.
ghost use Rattle.std.specs.Prelude.{◌≡◌};
ghost use Rattle.rules.specs.Answers.{out};
ghost use Rattle.rules.specs.Fit.{FitPool};
ghost use Rattle.rules.specs.Layout.{Lent};
ghost use Rattle.rules.specs.Begin.{slot_begin, fit_begin, begin_of, begin_put_of, begin_take_of};
ghost use Rattle.rules.specs.Make.{shipped};

use fitness::fit_settings;
use image::{out_of_steps, worker_at};
use rules::{Answer, Phase, Refusal, Settings, Side};
use slots::{idle_at, index_of, store};
use worker::fresh_slot;

// Begins the worker whose words start at `at`.
fn slot_begin(
    words: &mut [u32],
    g: Settings,
    at: usize,
    side: Side,
    value: u32,
) -> Result<Answer, Refusal>
    requires { Lent g words.old at }
    ensures { out result words.new ≡ slot_begin words.old g at side value }
{
    if !idle_at(words, at) {
        return Err(Refusal::WorkerBusy);
    }
    if out_of_steps(words) {
        return Err(Refusal::StepsSpent);
    }
    let index = index_of(words, at);
    let slot = fresh_slot(g, value, index, Phase::Window(side));
    store(words, g, at, slot);
    Ok(Answer::Moving)
}

// Begins worker `i` of a fit pool.
pub fn fit_begin(
    words: &mut [u32],
    g: Settings,
    i: u32,
    side: Side,
    value: u32,
) -> Result<Answer, Refusal>
    requires { FitPool g words.old }
    ensures { out result words.new ≡ fit_begin words.old g i side value }
{
    if g.workers <= i {
        return Err(Refusal::NoSuchWorker);
    }
    slot_begin(words, g, worker_at(g, i), side, value)
}

fn begin(words: &mut [u32], i: u32, side: Side, value: u32) -> Result<Answer, Refusal>
    ensures { out result words.new ≡ begin_of shipped words.old i side value }
{
    let g = fit_settings(words)?;
    fit_begin(words, g, i, side, value)
}

// Begins a put of a value by a worker.
pub fn begin_put(words: &mut [u32], worker: u32, value: u32) -> Result<Answer, Refusal>
    ensures { out result words.new ≡ begin_put_of shipped words.old worker value }
{
    begin(words, worker, Side::Putting, value)
}

// Begins a take by a worker.
pub fn begin_take(words: &mut [u32], worker: u32) -> Result<Answer, Refusal>
    ensures { out result words.new ≡ begin_take_of shipped words.old worker }
{
    begin(words, worker, Side::Taking, 0)
}
