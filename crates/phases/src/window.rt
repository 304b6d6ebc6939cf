// The window phase.
ghost use Rattle.std.specs.Prelude.{◌≡◌, ◌%◌, ◌≤◌};
ghost use Rattle.rules.specs.Effects.{queue_view};
ghost use Rattle.rules.specs.Window.{window_for, queue_seen, stack_seen, window_rule};

use commits::views::{queue_view, stack_view};
use effects::{looked, moved};
use rules::{Effect, Phase, QueueView, Settings, Side, Slot, Span, View};

// The put window or the take window.
// Stays: number by number: of two windows that it may copy the compiler keeps both in memory.
fn window_for(q: QueueView, side: Side) -> Span
    ensures { result ≡ window_for q side }
{
    match side {
        Side::Putting => Span {
            top: q.put.top,
            bottom: q.put.bottom,
            width: q.put.width,
        },
        Side::Taking => Span {
            top: q.take.top,
            bottom: q.take.bottom,
            width: q.take.width,
        },
    }
}

// An index modulo a width. Most lie below it: for those no division is made.
fn index_in(width: u32, index: u32) -> u32
    requires { 1 ≤ width }
    ensures { result ≡ index % width }
{
    if index < width { index } else { index % width }
}

fn queue_seen(g: Settings, v: View, side: Side, window: Span) -> Effect
    requires { 1 ≤ window.width }
    ensures { result ≡ queue_seen g v side window }
{
    let index = index_in(window.width, v.worker.index);
    looked(g, v, index, side, window)
}

fn stack_seen(g: Settings, v: View, side: Side) -> Effect
    ensures { result ≡ stack_seen g v side }
{
    let s = stack_view(v);
    let read = Phase::StackRead {
        side,
        window: s.window,
        version: s.version,
        scan: 0,
        sum: 0,
    };
    moved(g, v, v.worker.index, read, Slot::default())
}

#[tactic(auto, unfolding(laws::specs::Choice::cond, rules::specs::Window::window_rule))]
pub fn window(g: Settings, v: View, side: Side) -> Effect
    requires { 1 ≤ (window_for (queue_view v) side).width }
    ensures { result ≡ window_rule g v side }
{
    if g.kind == 0 {
        queue_seen(g, v, side, window_for(queue_view(v), side))
    } else {
        stack_seen(g, v, side)
    }
}
