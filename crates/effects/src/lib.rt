// The ways in which a step can end: what it leaves of all that it read.
#![tactic(auto)]

ghost use Rattle.std.specs.Prelude.{◌≡◌, ◌<◌};
ghost use Rattle.rules.specs.Commit.{lost_of, landed_of, removed_of};
ghost use Rattle.rules.specs.Shift.{shifted_of};
ghost use Rattle.rules.specs.Limits.{Bounds};
ghost use Rattle.rules.specs.Window.{read_from};
ghost use Rattle.rules.specs.Worker.{zero_slot};
ghost use Rattle.rules.specs.Effects.{next_of, hop_of, keep_of, refused_of, moved_of, restart_of, finished_of, nothing_for, with_pass};

use rules::{
    Effect, Outcome, Phase, Refusal, Row, Settings, Side, Slot, Span, Stamp, View, Worker,
};
use worker::{fresh_slot, seen_slot, slot_of};

// The index after `x`, of so many.
#[tactic(auto, unfolding(rules::specs::Effects::next_of))]
pub fn next(width: u32, x: u32) -> u32
    requires { x < width }
    ensures { result ≡ next_of width x }
{
    if x + 1 < width { x + 1 } else { 0 }
}

// The index for a worker that lost a commit at `x`: on by the stride, where 0 stands for 1.
#[tactic(auto, unfolding(laws::specs::Choice::cond, rules::specs::Effects::next_of, rules::specs::Effects::hop_of))]
pub fn hop(g: Settings, x: u32) -> u32
    requires bounds { Bounds g }
    requires x_lt_width { x < g.width }
    ensures { result ≡ hop_of g x }
{
    if g.stride == 0 {
        next(g.width, x)
    } else {
        (x + g.stride) % g.width
    }
}

// All that is shared stays.
fn keep(v: View, outcome: Outcome, slot: Slot) -> Effect
    ensures { result ≡ keep_of v outcome slot }
{
    Effect {
        outcome,
        slot,
        top: v.top,
        mark: v.mark,
        puts: v.puts,
        first: v.first,
        second: v.second,
    }
}

pub fn refused(v: View, refusal: Refusal) -> Effect
    ensures { result ≡ refused_of v refusal }
{
    keep(v, Outcome::Refused(refusal), v.kept)
}

// The worker goes on with these words.
fn going(v: View, slot: Slot) -> Effect
    ensures { result ≡ keep_of v Outcome.Moving slot }
{
    keep(v, Outcome::Moving, slot)
}

// The worker at an index in a phase, with its other words as in `kept`.
pub fn moved(g: Settings, v: View, index: u32, phase: Phase, kept: Slot) -> Effect
    ensures { result ≡ moved_of g v index phase kept }
{
    let worker = Worker {
        index,
        phase,
        ..v.worker
    };
    going(v, slot_of(g, worker, kept))
}

// The worker at an index, about to read: it has just seen a queue's window, and its other words are zero.
pub fn looked(g: Settings, v: View, index: u32, side: Side, window: Span) -> Effect
    ensures { result ≡ moved_of g v index (read_from window side) zero_slot }
{
    going(v, seen_slot(g, v.worker.value, index, side, window))
}

pub fn restart(g: Settings, v: View, index: u32, side: Side) -> Effect
    ensures { result ≡ restart_of g v index side }
{
    moved(g, v, index, Phase::Window(side), v.kept)
}

// A commit that failed: on by the stride, and counted.
pub fn lost(g: Settings, v: View, side: Side) -> Effect
    requires bounds { Bounds g }
    requires index_lt_width { v.worker.index < g.width }
    ensures { result ≡ lost_of g v side }
{
    Effect {
        outcome: Outcome::Lost,
        ..restart(g, v, hop(g, v.worker.index), side)
    }
}

pub fn finished(g: Settings, v: View, outcome: Outcome, index: u32) -> Effect
    ensures { result ≡ finished_of g v outcome index }
{
    keep(v, outcome, fresh_slot(g, 0, index, Phase::Idle))
}

// A restart with the window words moved.
pub fn shifted(g: Settings, v: View, outcome: Outcome, side: Side, top: u32, mark: u32) -> Effect
    ensures { result ≡ shifted_of g v outcome side top mark }
{
    Effect {
        outcome,
        top,
        mark,
        ..restart(g, v, v.worker.index, side)
    }
}

// An item lands in a row; the sub's words are then `first` and `second`.
pub fn landed(g: Settings, v: View, first: u32, second: u32, row: Row) -> Effect
    ensures { result ≡ landed_of g v first second row }
{
    let puts = v.puts.wrapping_add(1);
    let outcome = Outcome::Landed {
        value: v.worker.value,
        row,
        stamp: Stamp(puts),
    };
    Effect {
        puts,
        first,
        second,
        ..finished(g, v, outcome, v.worker.index)
    }
}

// The item of a row is taken.
pub fn removed(g: Settings, v: View, first: u32, second: u32, row: Row) -> Effect
    ensures { result ≡ removed_of g v first second row }
{
    Effect {
        first,
        second,
        ..finished(g, v, Outcome::Removed { row }, v.worker.index)
    }
}

// The answer of a pass that found no place.
pub fn nothing_for(side: Side) -> Outcome
    ensures { result ≡ nothing_for side }
{
    match side {
        Side::Putting => Outcome::Full,
        Side::Taking => Outcome::Empty,
    }
}

// The worker's words with another extra, scan and sum.
pub fn with_pass(old: Slot, extra: u32, scan: u32, sum: u32) -> Slot
    ensures { result ≡ with_pass old extra scan sum }
{
    Slot {
        extra,
        scan,
        sum,
        ..old
    }
}
