// The shift phase.
ghost use Rattle.std.specs.Prelude.{◌≡◌, leb};
ghost use Rattle.laws.specs.Choice.{both};
ghost use Rattle.laws.specs.Wrap.{sub32};
ghost use Rattle.rules.specs.Shift.{shift_by, may_rise, queue_shift, stack_shift};

use commits::views::{queue_view, stack_view};
use effects::{finished, moved, nothing_for, restart, shifted};
use rules::numbers::{MOST_LIVE, WINDOWED};
use rules::{Effect, Outcome, Phase, QueueView, Settings, Side, Span, Version, View};

// A window that is the seen one moves where it can, with what stands for a window that cannot.
#[tactic(auto, unfolding(laws::specs::Choice::cond, rules::specs::Shift::shift_by))]
fn shift_by(
    g: Settings,
    v: View,
    side: Side,
    same: bool,
    able: bool,
    moved: Effect,
    stuck: Effect,
) -> Effect
    ensures { result ≡ shift_by g v side same able moved stuck }
{
    if !same {
        restart(g, v, v.worker.index, side)
    } else if able {
        moved
    } else {
        stuck
    }
}

// Whether there may be a window more; where windows have no sizes of their own, they are not counted.
#[tactic(auto, unfolding(laws::specs::Choice::cond, rules::specs::Limits::windowed))]
fn may_rise(g: Settings, q: QueueView) -> bool
    ensures { result ≡ may_rise g q }
{
    g.edition < WINDOWED || q.live < MOST_LIVE
}

// Whether the put window's top may be so high.
fn room_for(g: Settings, q: QueueView, top: u32) -> bool
    ensures { result ≡ both (leb (sub32 top q.take.bottom) g.rows) (may_rise g q) }
{
    top.wrapping_sub(q.take.bottom) <= g.rows && may_rise(g, q)
}

// The put window moves on where the rows from the take window's bottom to its new top have a cell each, and the take window follows it.
#[tactic(auto, unfolding(rules::specs::Shift::queue_shift))]
pub fn queue_shift(g: Settings, v: View, side: Side, window: Span) -> Effect
    ensures { result ≡ queue_shift g v side window }
{
    let q = queue_view(v);
    let (put, take) = (q.put.top, q.take.top);
    let (same, able, moved) = match side {
        Side::Putting => {
            let top = put.wrapping_add(q.next);
            let moved = shifted(g, v, Outcome::Raised, side, top, v.mark);
            (put == window.top, room_for(g, q, top), moved)
        }
        Side::Taking => {
            let top = take.wrapping_add(q.after);
            let moved = shifted(g, v, Outcome::Dropped, side, v.top, top);
            (take == window.top, take < put, moved)
        }
    };
    let stuck = finished(g, v, nothing_for(side), v.worker.index);
    shift_by(g, v, side, same, able, moved, stuck)
}

#[tactic(auto, unfolding(rules::specs::Shift::stack_shift))]
pub fn stack_shift(
    g: Settings,
    v: View,
    side: Side,
    version: Version,
    scan: u32,
    sum: u32,
) -> Effect
    ensures { result ≡ stack_shift g v side version scan sum }
{
    let s = stack_view(v);
    let same = s.version == version;
    let newer = s.version.0.wrapping_add(1);
    let confirm = Phase::StackConfirm { side, scan, sum };
    let stuck = moved(g, v, v.worker.index, confirm, v.kept);
    let (top, able) = match side {
        Side::Putting => {
            let up = s.window.wrapping_add(g.shift);
            (up, up <= g.rows)
        }
        Side::Taking => (s.window.wrapping_sub(g.shift), g.depth < s.window),
    };
    let moved = shifted(g, v, Outcome::Shifted, side, top, newer);
    shift_by(g, v, side, same, able, moved, stuck)
}
