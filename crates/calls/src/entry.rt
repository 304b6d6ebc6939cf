// The one function behind begin put, begin take, step and the dispatcher's steps, in which the check, the begins and all of a step become one piece of code:
// each of them is called from one place. It returns a number, in a register, and writes the fields where C wants them.
ghost use Rattle.std.specs.Prelude.{◌≡◌};
ghost use Rattle.calls.specs.Called.{called};
ghost use Rattle.calls.specs.declared.asked.Asked.TheVariants.{CheckedStep};
ghost use Rattle.rules.specs.Answers.{returned, returned_of};
ghost use Rattle.rules.specs.Begin.{fit_begin};
ghost use Rattle.rules.specs.Fit.{Fit, checked_of, fitness_of};
ghost use Rattle.rules.specs.Layout.{settings_of};
ghost use Rattle.rules.specs.Make.{shipped};
ghost use Rattle.rules.specs.Step.{fit_step};

use crate::asked::{Asked, Asks};
use crate::begin::fit_begin;
use fitness::quick_check;
use image::shipped_settings;
use rules::numbers::SHIPPED;
use rules::{Refusal, Side};
use step::answers::answered;
use step::fit_answer;

// Why the words are no fit pool, if they are none.
fn check(words: &[u32], asked: Asked) -> Result<(), Refusal>
    requires { asked ≡ CheckedStep → checked_of shipped words.now ≡ Fit (settings_of words.now) }
    ensures { result ≡ fitness_of (checked_of shipped words.now) }
{
    if asked == Asked::CheckedStep {
        return Ok(());
    }
    quick_check(words, SHIPPED)
}

// Begins worker `i` of a fit pool: the answer's number, with the five fields written.
fn begun(words: &mut [u32], side: Side, i: u32, value: u32, five: &mut [u32; 5]) -> u32
    requires { checked_of shipped words.old ≡ Fit (settings_of words.old) }
    ensures { returned result words.new five.new ≡ returned_of (fit_begin words.old (settings_of words.old) i side value) }
{
    let g = shipped_settings(words);
    answered(fit_begin(words, g, i, side, value), five)
}

// Does what is asked of worker `i`: the answer's number, with the five fields written.
// Stays a number, with fields beside it: the C interface returns it, and it becomes the body of each exported function.
pub fn call<A: Asks>(words: &mut [u32], what: A, i: u32, value: u32, five: &mut [u32; 5]) -> u32
    requires { A.unchecked what → checked_of shipped words.old ≡ Fit (settings_of words.old) }
    ensures { returned result words.new five.new ≡ returned_of (called (A.asked what) words.old i value) }
{
    let asked = what.asked();
    if let Err(refusal) = check(words, asked) {
        return answered(Err(refusal), five);
    }
    let side = match asked {
        Asked::Put => Side::Putting,
        Asked::Take => Side::Taking,
        Asked::Step | Asked::CheckedStep => return fit_answer(words, i, five),
    };
    begun(words, side, i, value, five)
}

// A step of worker `i` of a fit pool.
pub fn next_answer(words: &mut [u32], i: u32, five: &mut [u32; 5]) -> u32
    requires { checked_of shipped words.old ≡ Fit (settings_of words.old) }
    ensures { returned result words.new five.new ≡ returned_of (fit_step words.old (settings_of words.old) i) }
{
    call(words, Asked::CheckedStep, i, 0, five)
}
