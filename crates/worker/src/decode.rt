// The worker that the words hold.
ghost use Rattle.std.specs.Prelude.{◌≡◌, ltb};
ghost use Rattle.laws.specs.Choice.{cond};
ghost use Rattle.rules.specs.Worker.{side_base, seen_by, queue_phase, stack_phase, phase_of, decode};

use crate::windows::{size_of, span_of};
use rules::numbers::{
    CHECK, COMMIT, CONFIRM, READ, SHIFT, TAKE_CHECK, TAKE_COMMIT, TAKE_CONFIRM, TAKE_READ,
    TAKE_SHIFT, TAKE_WINDOW, TAKING, WINDOW, WINDOWED,
};
use rules::{Phase, Settings, Side, Slot, Span, Version, Worker};

// Whose phase a number is.
// Stays: a number: so a worker's phase lies in the pool's words.
#[tactic(auto, unfolding(laws::specs::Choice::cond))]
pub fn side_of(number: u32) -> Side
    ensures { result ≡ cond (ltb number (side_base Side.Taking)) Side.Putting Side.Taking }
{
    if number < TAKING {
        Side::Putting
    } else {
        Side::Taking
    }
}

// The window that a queue's worker has seen, in an edition that has no words for its bottom and its width by its top.
#[tactic(auto, unfolding(laws::specs::Choice::cond, rules::specs::Limits::windowed, rules::specs::Worker::seen_by))]
pub fn seen_by(g: Settings, s: Slot) -> Span
    ensures { result ≡ seen_by g s }
{
    if WINDOWED <= g.edition {
        Span {
            top: s.window,
            bottom: s.bottom,
            width: s.width,
        }
    } else {
        span_of(s.window, size_of(g))
    }
}

#[tactic(auto, unfolding(laws::specs::Choice::cond, rules::specs::Worker::queue_phase))]
fn queue_phase(g: Settings, s: Slot) -> Phase
    ensures { result ≡ queue_phase g s }
{
    let Slot {
        number,
        extra: bare,
        scan,
        seen,
        sum,
        ..
    } = s;
    let side = side_of(number);
    let window = seen_by(g, s);
    match number {
        WINDOW | TAKE_WINDOW => Phase::Window(side),
        READ => Phase::QueuePutRead { window, scan },
        TAKE_READ => Phase::QueueTakeRead {
            window,
            bare,
            scan,
            sum,
        },
        COMMIT | TAKE_COMMIT => Phase::QueueCommit { side, window, seen },
        SHIFT | TAKE_SHIFT => Phase::QueueShift { side, window },
        TAKE_CONFIRM => Phase::QueueConfirm { window, scan, sum },
        _ => Phase::Idle,
    }
}

#[tactic(auto, unfolding(laws::specs::Choice::cond, rules::specs::Worker::stack_phase))]
fn stack_phase(s: Slot) -> Phase
    ensures { result ≡ stack_phase s }
{
    let Slot {
        number,
        window,
        scan,
        sum,
        ..
    } = s;
    let side = side_of(number);
    let version = Version(s.extra);
    let seen = Version(s.seen);
    match number {
        WINDOW | TAKE_WINDOW => Phase::Window(side),
        READ | TAKE_READ => Phase::StackRead {
            side,
            window,
            version,
            scan,
            sum,
        },
        CHECK | TAKE_CHECK => Phase::Check {
            side,
            version,
            seen,
        },
        COMMIT | TAKE_COMMIT => Phase::StackCommit { side, seen },
        SHIFT | TAKE_SHIFT => Phase::StackShift {
            side,
            version,
            scan,
            sum,
        },
        CONFIRM | TAKE_CONFIRM => Phase::StackConfirm { side, scan, sum },
        _ => Phase::Idle,
    }
}

#[tactic(auto, unfolding(laws::specs::Choice::cond, rules::specs::Worker::phase_of))]
fn phase_of(g: Settings, s: Slot) -> Phase
    ensures { result ≡ phase_of g s }
{
    if g.kind == 0 {
        queue_phase(g, s)
    } else {
        stack_phase(s)
    }
}

// In a pool of some settings.
pub fn worker_of(g: Settings, s: Slot) -> Worker
    ensures { result ≡ decode g s }
{
    Worker {
        value: s.value,
        index: s.index,
        phase: phase_of(g, s),
    }
}
