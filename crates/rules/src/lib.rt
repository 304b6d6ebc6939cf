// The declared types of the pool, and its numbers that have a meaning. The rules over them are in specs/, in paper 01's order.
#![tactic(auto)]

pub mod numbers;
mod refusal_number;
mod refusals;

pub use refusal_number::RefusalNumber;

// A row of a sub, from 1.
#[derive(Clone, Copy, Debug, Default, PartialEq, Eq, PartialOrd, Ord)]
pub struct Row(pub u32);

// The number of a put, from 1.
#[derive(Clone, Copy, Debug, Default, PartialEq, Eq, PartialOrd, Ord)]
pub struct Stamp(pub u32);

// How often a stack's window, or a sub of it, has changed.
#[derive(Clone, Copy, Debug, Default, PartialEq, Eq, PartialOrd, Ord)]
pub struct Version(pub u32);

// A pool's settings, words 0 to 5, 10 and 11. Kind 0 is a queue (paper 01's line), 1 a stack (its pile). The edition says how many words a
// worker has, and whether a queue's windows have sizes of their own.
// Stays: kind and edition are numbers: the lent words may hold any, and `settings_of` says of all words what they hold; C's make takes any too.
#[derive(Clone, Copy, Debug, PartialEq, Eq)]
pub struct Settings {
    pub kind: u32,
    pub width: u32,
    pub depth: u32,
    pub shift: u32,
    pub rows: u32,
    pub workers: u32,
    pub stride: u32,
    pub edition: u32,
}

// So many of a sub's cells, one after the other, from its cell `start` on, counted from 0: paper 02's straight run.
#[derive(Clone, Copy, Debug, Default, PartialEq, Eq)]
pub struct Segment {
    pub start: u32,
    pub count: u32,
}

// At most two of them, one after the other: up to the sub's last cell, and on from its first. One without cells is none.
#[derive(Clone, Copy, Debug, Default, PartialEq, Eq)]
pub struct Segments {
    pub first: Segment,
    pub second: Segment,
}

// How large a queue's window is: so many subs wide, and so many rows deep.
#[derive(Clone, Copy, Debug, Default, PartialEq, Eq)]
pub struct Size {
    pub width: u32,
    pub depth: u32,
}

// A queue's window as a worker sees it: the rows above `bottom` up to `top` of the subs below `width`.
#[derive(Clone, Copy, Debug, PartialEq, Eq)]
pub struct Span {
    pub top: u32,
    pub bottom: u32,
    pub width: u32,
}

// What an operation was begun as.
#[derive(Clone, Copy, Debug, PartialEq, Eq)]
pub enum Side {
    Putting,
    Taking,
}

// A worker's phase, with just what that phase has seen.
#[derive(Clone, Copy)]
pub enum Phase {
    Idle,
    Window(Side),
    // The put window; the subs missed.
    QueuePutRead {
        window: Span,
        scan: u32,
    },
    // The take window; the bare subs among those missed; the subs missed; the last put rows read.
    QueueTakeRead {
        window: Span,
        bare: u32,
        scan: u32,
        sum: u32,
    },
    // The window and its version; the subs missed; the versions read.
    StackRead {
        side: Side,
        window: u32,
        version: Version,
        scan: u32,
        sum: u32,
    },
    // The window's version, and the sub's.
    Check {
        side: Side,
        version: Version,
        seen: Version,
    },
    // The window; the sub's last put row, or its last taken row.
    QueueCommit {
        side: Side,
        window: Span,
        seen: u32,
    },
    // The sub's version.
    StackCommit {
        side: Side,
        seen: Version,
    },
    QueueShift {
        side: Side,
        window: Span,
    },
    // The window's version; the pass that a confirm goes on with.
    StackShift {
        side: Side,
        version: Version,
        scan: u32,
        sum: u32,
    },
    // The take window; the subs confirmed; what is left of the sum. A queue's put has no confirm.
    QueueConfirm {
        window: Span,
        scan: u32,
        sum: u32,
    },
    // The subs confirmed; what is left of the sum.
    StackConfirm {
        side: Side,
        scan: u32,
        sum: u32,
    },
}

// A worker.
#[derive(Clone, Copy)]
pub struct Worker {
    pub value: u32,
    pub index: u32,
    pub phase: Phase,
}

// A worker's words as they lie, but for its failed commits; `number` is the phase's. An edition that does not have the last two, of the
// window seen, reads them as zero and drops them.
// Stays: the phase is a number here, as the lent words hold it, whatever it is (`slot_at`); `Worker` has the phase that it stands for.
#[derive(Clone, Copy, Debug, Default, PartialEq, Eq)]
pub struct Slot {
    pub number: u32,
    pub value: u32,
    pub index: u32,
    pub window: u32,
    pub extra: u32,
    pub scan: u32,
    pub seen: u32,
    pub sum: u32,
    pub bottom: u32,
    pub width: u32,
}

// How large a queue's windows are: the put window, the take window, the one after it, and the next put window; and how many are live, from
// the take window to the put window.
#[derive(Clone, Copy, Debug, Default, PartialEq, Eq)]
pub struct Sizes {
    pub put: Size,
    pub take: Size,
    pub after: Size,
    pub next: Size,
    pub live: u32,
}

// What a step may read. `top` is word 8, the top of a queue's put window or a stack's window; `mark` is word 9, the top of a queue's
// take window or the version of a stack's window. `first` and `second` are the two words of the sub at the worker's index:
// items put and items taken, or items held and version. `worker` is what the worker's words hold; `kept` are those words
// as they lie, for the ones that its next phase does not hold.
#[derive(Clone, Copy)]
pub struct View {
    pub top: u32,
    pub mark: u32,
    pub sizes: Sizes,
    pub puts: u32,
    pub first: u32,
    pub second: u32,
    pub worker: Worker,
    pub kept: Slot,
}

// What a queue's rules read of a view: the two windows, how deep the next put window is and the window after the take window, how many
// windows are live, and the last rows of the sub.
#[derive(Clone, Copy)]
pub struct QueueView {
    pub put: Span,
    pub take: Span,
    pub next: u32,
    pub after: u32,
    pub live: u32,
    pub last_put: u32,
    pub last_taken: u32,
}

// The shared words of a view, as a stack's rules read them.
#[derive(Clone, Copy)]
pub struct StackView {
    pub window: u32,
    pub version: Version,
    pub items_held: u32,
    pub sub_version: Version,
}

// How a step ends, and so which words it writes: the worker's and the step count, where a commit failed (`Lost`) the worker's count of
// those, where a stack's window moved (`Shifted`) its two words, where a queue's put window moved on (`Raised`) or its take window
// (`Dropped`) that window's, where an item landed or was removed the two of its sub.
#[derive(Clone, Copy)]
pub enum Outcome {
    Refused(Refusal),
    Moving,
    Lost,
    Shifted,
    Raised,
    Dropped,
    Landed { value: u32, row: Row, stamp: Stamp },
    Removed { row: Row },
    Empty,
    Full,
}

// What a step does: all that it read, as it is afterwards.
#[derive(Clone, Copy)]
pub struct Effect {
    pub outcome: Outcome,
    pub slot: Slot,
    pub top: u32,
    pub mark: u32,
    pub puts: u32,
    pub first: u32,
    pub second: u32,
}

// What a call answers that is not refused. `Moving` is paper 01's 0: moving, made or begun.
#[derive(Clone, Copy)]
pub enum Answer {
    Moving,
    Put {
        value: u32,
        sub: u32,
        row: Row,
        stamp: Stamp,
    },
    Taken {
        value: u32,
        sub: u32,
        row: Row,
        stamp: Stamp,
        distance: u32,
    },
    Empty,
    Full,
}

// Why a call is refused, or a run file is not read on: paper 01's and paper 02's numbers.
#[derive(Clone, Copy, Debug, PartialEq, Eq)]
pub enum Refusal {
    TooFewWords = 21,
    OffLimits = 22,
    NotFit = 23,
    NoSuchWorker = 24,
    WorkerBusy = 25,
    WorkerIdle = 26,
    StepsSpent = 27,
    FileCut = 28,
    BadWord = 29,
    OverBound = 30,
    WrongEdition = 31,
    OffSize = 32,
    Excepted = 33,
}

// What a dispatcher comes to that is not refused. `Finished` names the worker, with its final answer; where the count ran out, `next` is the
// worker whose turn is next.
#[derive(Clone, Copy)]
pub enum Dispatched {
    Finished { worker: u32, answer: Answer },
    NoneBusy,
    RanOut { next: u32 },
}
