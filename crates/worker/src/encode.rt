// The words of a worker.
ghost use Rattle.std.specs.Prelude.{◌≡◌, ◌≤◌};
ghost use Rattle.rules.specs.Window.{read_from};
ghost use Rattle.rules.specs.Worker.{confirm_phase, encode, fresh, kept, number_for};

use rules::numbers::{
    CHECK, COMMIT, CONFIRM, IDLE, READ, SHIFT, TAKE_CONFIRM, TAKE_READ, TAKING, WINDOW, WINDOWED,
};
use rules::{Phase, Settings, Side, Slot, Span, Worker};

// A take's phases are a put's and `TAKING`.
fn number_of(side: Side, phase: u32) -> u32
    requires { phase ≤ confirm_phase }
    ensures { result ≡ number_for side phase }
{
    match side {
        Side::Putting => phase,
        Side::Taking => TAKING + phase,
    }
}

// The words with a window that a queue's worker has seen; an edition that has no words for its bottom and its width drops them.
#[tactic(auto, unfolding(laws::specs::Choice::cond, rules::specs::Limits::windowed))]
fn with_window(g: Settings, old: Slot, window: Span) -> Slot
    ensures { result ≡ record old { window = window.top; bottom = kept g window.bottom; width = kept g window.width } }
{
    let Span { top, bottom, width } = window;
    if WINDOWED <= g.edition {
        Slot {
            window: top,
            bottom,
            width,
            ..old
        }
    } else {
        Slot {
            window: top,
            bottom: 0,
            width: 0,
            ..old
        }
    }
}

// The words of a worker. What its phase holds goes before the old words, which are kept where it holds none.
#[tactic(auto, unfolding(rules::specs::Worker::encode, rules::specs::Worker::encode_phase))]
pub fn slot_of(g: Settings, k: Worker, old: Slot) -> Slot
    ensures { result ≡ encode g k old }
{
    let old = Slot {
        value: k.value,
        index: k.index,
        ..old
    };
    match k.phase {
        Phase::Idle => Slot {
            number: IDLE,
            ..old
        },
        Phase::Window(side) => Slot {
            number: number_of(side, WINDOW),
            ..old
        },
        Phase::QueuePutRead { window, scan } => Slot {
            number: READ,
            scan,
            ..with_window(g, old, window)
        },
        Phase::QueueTakeRead {
            window,
            bare,
            scan,
            sum,
        } => Slot {
            number: TAKE_READ,
            extra: bare,
            scan,
            sum,
            ..with_window(g, old, window)
        },
        Phase::StackRead {
            side,
            window,
            version,
            scan,
            sum,
        } => Slot {
            number: number_of(side, READ),
            window,
            extra: version.0,
            scan,
            sum,
            ..old
        },
        Phase::Check {
            side,
            version,
            seen,
        } => Slot {
            number: number_of(side, CHECK),
            extra: version.0,
            seen: seen.0,
            ..old
        },
        Phase::QueueCommit { side, window, seen } => Slot {
            number: number_of(side, COMMIT),
            seen,
            ..with_window(g, old, window)
        },
        Phase::StackCommit { side, seen } => Slot {
            number: number_of(side, COMMIT),
            seen: seen.0,
            ..old
        },
        Phase::QueueShift { side, window } => Slot {
            number: number_of(side, SHIFT),
            ..with_window(g, old, window)
        },
        Phase::StackShift {
            side,
            version,
            scan,
            sum,
        } => Slot {
            number: number_of(side, SHIFT),
            extra: version.0,
            scan,
            sum,
            ..old
        },
        Phase::QueueConfirm { window, scan, sum } => Slot {
            number: TAKE_CONFIRM,
            scan,
            sum,
            ..with_window(g, old, window)
        },
        Phase::StackConfirm { side, scan, sum } => Slot {
            number: number_of(side, CONFIRM),
            scan,
            sum,
            ..old
        },
    }
}

// The words of a worker whose other words are zero.
pub fn fresh_slot(g: Settings, value: u32, index: u32, phase: Phase) -> Slot
    ensures { result ≡ fresh g value index phase }
{
    slot_of(
        g,
        Worker {
            value,
            index,
            phase,
        },
        Slot::default(),
    )
}

// The words of a worker that has just seen a queue's window. Its phase is not made first, and then taken apart: the two sides' are of different sizes, and
// the compiler would keep the window in memory.
pub fn seen_slot(g: Settings, value: u32, index: u32, side: Side, window: Span) -> Slot
    ensures { result ≡ fresh g value index (read_from window side) }
{
    let fresh = Slot {
        value,
        index,
        ..Slot::default()
    };
    Slot {
        number: number_of(side, READ),
        ..with_window(g, fresh, window)
    }
}
