// The functions that C calls: those of pool's export, under the same clauses.
#![tactic(auto)]

ghost use Rattle.std.specs.Prelude.{◌≡◌, []};
ghost use Rattle.rules.specs.Answers.{returned, returned_of, returned_alone};
ghost use Rattle.rules.specs.Begin.{begin_put_of, begin_take_of};
ghost use Rattle.rounds.specs.Dispatch.{dispatch_of, dispatch_returned};
ghost use Rattle.rules.specs.Make.{shipped, settings_from, make_of};
ghost use Rattle.turnaround.specs.Move.{move_of};
ghost use Rattle.rules.specs.Resize.{set_size_of};
ghost use Rattle.rules.specs.Step.{step_of};

use pool::export;

#[unsafe(no_mangle)]
pub extern "C" fn pool_make(
    words: &mut [u32],
    kind: u32,
    width: u32,
    depth: u32,
    shift: u32,
    rows: u32,
    workers: u32,
    stride: u32,
    fields: &mut [u32; 5],
) -> u32
    ensures { returned result words.new fields.new ≡ returned_of (make_of words.old (settings_from kind width depth shift rows workers stride)) }
{
    export::pool_make(
        words, kind, width, depth, shift, rows, workers, stride, fields,
    )
}

#[unsafe(no_mangle)]
pub extern "C" fn pool_begin_put(
    words: &mut [u32],
    worker: u32,
    value: u32,
    fields: &mut [u32; 5],
) -> u32
    ensures { returned result words.new fields.new ≡ returned_of (begin_put_of shipped words.old worker value) }
{
    export::pool_begin_put(words, worker, value, fields)
}

#[unsafe(no_mangle)]
pub extern "C" fn pool_begin_take(words: &mut [u32], worker: u32, fields: &mut [u32; 5]) -> u32
    ensures { returned result words.new fields.new ≡ returned_of (begin_take_of shipped words.old worker) }
{
    export::pool_begin_take(words, worker, fields)
}

#[unsafe(no_mangle)]
pub extern "C" fn pool_step(words: &mut [u32], worker: u32, fields: &mut [u32; 5]) -> u32
    ensures { returned result words.new fields.new ≡ returned_of (step_of shipped words.old worker) }
{
    export::pool_step(words, worker, fields)
}

#[unsafe(no_mangle)]
pub extern "C" fn pool_set_size(words: &mut [u32], width: u32, depth: u32) -> u32
    ensures { returned result words.new [] ≡ returned_alone (set_size_of shipped words.old (record { width = width; depth = depth })) }
{
    export::pool_set_size(words, width, depth)
}

// A saved pool of edition 0, moved to edition 1.
#[unsafe(no_mangle)]
pub extern "C" fn pool_move_0_to_1(from: &[u32], to: &mut [u32]) -> u32
    ensures { returned result to.new [] ≡ returned_alone (move_of 0 1 from.now to.old) }
{
    export::pool_move_0_to_1(from, to)
}

// And back.
#[unsafe(no_mangle)]
pub extern "C" fn pool_move_1_to_0(from: &[u32], to: &mut [u32]) -> u32
    ensures { returned result to.new [] ≡ returned_alone (move_of 1 0 from.now to.old) }
{
    export::pool_move_1_to_0(from, to)
}

// A saved pool of edition 1, moved to edition 2.
#[unsafe(no_mangle)]
pub extern "C" fn pool_move_1_to_2(from: &[u32], to: &mut [u32]) -> u32
    ensures { returned result to.new [] ≡ returned_alone (move_of 1 2 from.now to.old) }
{
    export::pool_move_1_to_2(from, to)
}

// And back.
#[unsafe(no_mangle)]
pub extern "C" fn pool_move_2_to_1(from: &[u32], to: &mut [u32]) -> u32
    ensures { returned result to.new [] ≡ returned_alone (move_of 2 1 from.now to.old) }
{
    export::pool_move_2_to_1(from, to)
}

#[unsafe(no_mangle)]
pub extern "C" fn pool_dispatch(
    words: &mut [u32],
    worker: u32,
    steps: u32,
    fields: &mut [u32; 6],
) -> u32
    ensures { returned result words.new fields.new ≡ dispatch_returned (dispatch_of shipped words.old worker steps) }
{
    export::pool_dispatch(words, worker, steps, fields)
}
