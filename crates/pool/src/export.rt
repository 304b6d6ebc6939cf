// The functions that C calls, by pool_c: the answer's number is returned, and its five fields are written; of a dispatcher's result six, and a size call and a move have none.
ghost use Rattle.std.specs.Prelude.{◌≡◌, []};
ghost use Rattle.rules.specs.Answers.{returned, returned_of, returned_alone};
ghost use Rattle.rules.specs.Begin.{begin_put_of, begin_take_of};
ghost use Rattle.rounds.specs.Dispatch.{dispatch_of, dispatch_returned, result_number, result_fields};
ghost use Rattle.rules.specs.Make.{shipped, settings_from, make_of};
ghost use Rattle.turnaround.specs.Move.{move_of};
ghost use Rattle.rules.specs.Resize.{set_size_of};
ghost use Rattle.rules.specs.Step.{step_of};

use calls::{Asked, call};
use dispatcher::dispatch;
use moves::move_pool;
use rules::{Dispatched, Refusal};
use setup::{make, set_size};
use step::answers::{answered, fields, number};

pub fn pool_make(
    words: &mut [u32],
    kind: u32,
    width: u32,
    depth: u32,
    shift: u32,
    rows: u32,
    workers: u32,
    stride: u32,
    fields: &mut [u32; 5],
) -> u32
    ensures { returned result words.new fields.new ≡ returned_of (make_of words.old (settings_from kind width depth shift rows workers stride)) }
{
    answered(
        make(words, kind, width, depth, shift, rows, workers, stride),
        fields,
    )
}

pub fn pool_begin_put(words: &mut [u32], worker: u32, value: u32, fields: &mut [u32; 5]) -> u32
    ensures { returned result words.new fields.new ≡ returned_of (begin_put_of shipped words.old worker value) }
{
    call(words, Asked::Put, worker, value, fields)
}

pub fn pool_begin_take(words: &mut [u32], worker: u32, fields: &mut [u32; 5]) -> u32
    ensures { returned result words.new fields.new ≡ returned_of (begin_take_of shipped words.old worker) }
{
    call(words, Asked::Take, worker, 0, fields)
}

pub fn pool_step(words: &mut [u32], worker: u32, fields: &mut [u32; 5]) -> u32
    ensures { returned result words.new fields.new ≡ returned_of (step_of shipped words.old worker) }
{
    call(words, Asked::Step, worker, 0, fields)
}

pub fn pool_set_size(words: &mut [u32], width: u32, depth: u32) -> u32
    ensures { returned result words.new [] ≡ returned_alone (set_size_of shipped words.old (record { width = width; depth = depth })) }
{
    number(set_size(words, width, depth))
}

// Writes the six fields of a dispatcher's result; its number.
fn came_to(r: Result<Dispatched, Refusal>, six: &mut [u32; 6]) -> u32
    ensures { (result ≡ result_number r) × (six.new ≡ result_fields r) }
{
    *six = [0; 6];
    match r {
        Ok(Dispatched::Finished { worker, answer }) => {
            let [value, sub, row, stamp, distance] = fields::<Refusal>(Ok(answer));
            *six = [value, sub, row, stamp, distance, worker];
            number::<Refusal>(Ok(answer))
        }
        Ok(Dispatched::NoneBusy) => 5,
        Ok(Dispatched::RanOut { next }) => {
            six[5] = next;
            6
        }
        Err(refusal) => refusal.number(),
    }
}

// A saved pool of edition 0, moved to edition 1.
pub fn pool_move_0_to_1(from: &[u32], to: &mut [u32]) -> u32
    ensures { returned result to.new [] ≡ returned_alone (move_of 0 1 from.now to.old) }
{
    number(move_pool(from, 0, to, 1))
}

// And back.
pub fn pool_move_1_to_0(from: &[u32], to: &mut [u32]) -> u32
    ensures { returned result to.new [] ≡ returned_alone (move_of 1 0 from.now to.old) }
{
    number(move_pool(from, 1, to, 0))
}

// A saved pool of edition 1, moved to edition 2.
pub fn pool_move_1_to_2(from: &[u32], to: &mut [u32]) -> u32
    ensures { returned result to.new [] ≡ returned_alone (move_of 1 2 from.now to.old) }
{
    number(move_pool(from, 1, to, 2))
}

// And back.
pub fn pool_move_2_to_1(from: &[u32], to: &mut [u32]) -> u32
    ensures { returned result to.new [] ≡ returned_alone (move_of 2 1 from.now to.old) }
{
    number(move_pool(from, 2, to, 1))
}

pub fn pool_dispatch(words: &mut [u32], worker: u32, steps: u32, fields: &mut [u32; 6]) -> u32
    ensures { returned result words.new fields.new ≡ dispatch_returned (dispatch_of shipped words.old worker steps) }
{
    came_to(dispatch(words, worker, steps), fields)
}
