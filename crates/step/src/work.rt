// One step of a worker.
ghost use Rattle.std.specs.Prelude.{◌≡◌};
ghost use Rattle.rules.specs.Answers.{out, returned, returned_of};
ghost use Rattle.rules.specs.Fit.{Fit, FitPool, checked_of};
ghost use Rattle.rules.specs.Layout.{settings_of};
ghost use Rattle.rules.specs.Make.{shipped};
ghost use Rattle.rules.specs.Step.{slot_step, fit_step, step_of};
ghost use Rattle.step_views.specs.ByPhase.{Ready};

use crate::answers::answered;
use crate::by_phase::phase_step;
use fitness::fit_settings;
use image::{out_of_steps, shipped_settings, worker_at};
use rules::{Answer, Refusal, Settings};
use slots::idle_at;

// A step of the worker whose words start at `at`.
fn slot_step(words: &mut [u32], g: Settings, at: usize) -> Result<Answer, Refusal>
    requires { Ready g words.old at }
    ensures { out result words.new ≡ slot_step words.old g at }
{
    if idle_at(words, at) {
        return Err(Refusal::WorkerIdle);
    }
    if out_of_steps(words) {
        return Err(Refusal::StepsSpent);
    }
    phase_step(words, g, at)
}

// A step of worker `i` of a fit pool.
fn fit_step(words: &mut [u32], g: Settings, i: u32) -> Result<Answer, Refusal>
    requires { FitPool g words.old }
    ensures { out result words.new ≡ fit_step words.old g i }
{
    if g.workers <= i {
        return Err(Refusal::NoSuchWorker);
    }
    slot_step(words, g, worker_at(g, i))
}

// A step of worker `i` of a fit pool: its answer's number, with the five fields written. All of a step is behind it, and it becomes a part of the one function
// behind begins and steps (crate calls).
// Stays: it returns a number, in a register, as C wants it; an answer, and settings handed to it, would go through memory at every step.
pub fn fit_answer(words: &mut [u32], i: u32, five: &mut [u32; 5]) -> u32
    requires { checked_of shipped words.old ≡ Fit (settings_of words.old) }
    ensures { returned result words.new five.new ≡ returned_of (fit_step words.old (settings_of words.old) i) }
{
    let g = shipped_settings(words);
    answered(fit_step(words, g, i), five)
}

// One step of a worker.
pub fn step(words: &mut [u32], worker: u32) -> Result<Answer, Refusal>
    ensures { out result words.new ≡ step_of shipped words.old worker }
{
    let g = fit_settings(words)?;
    fit_step(words, g, worker)
}
