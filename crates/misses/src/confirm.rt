// The confirm phase.
ghost use Rattle.std.specs.Prelude.{◌≡◌, ◌<◌};
ghost use Rattle.rules.specs.Confirm.{confirmed_of, confirm_by, same_top, queue_confirm, stack_confirm};

use commits::views::{queue_view, stack_view};
use effects::{finished, moved, next, nothing_for, with_pass};
use rules::numbers::WINDOWED;
use rules::{Effect, Phase, Settings, Side, Span, View};
use worker::level_of;

// The last sub of so many is confirmed: the final answer where it is sure.
#[tactic(auto, unfolding(laws::specs::Choice::cond, rules::specs::Confirm::confirmed_of))]
fn confirmed(g: Settings, v: View, side: Side, width: u32, left: u32, sure: bool) -> Effect
    requires { v.worker.index < width }
    ensures { result ≡ confirmed_of g v side width left sure }
{
    let index = next(width, v.worker.index);
    if sure {
        finished(g, v, nothing_for(side), index)
    } else {
        let pass = with_pass(v.kept, v.kept.extra, 0, left);
        moved(g, v, index, Phase::Window(side), pass)
    }
}

// One sub more is confirmed, of so many, with the confirm phase `again`.
#[tactic(auto, unfolding(laws::specs::Choice::cond, rules::specs::Confirm::confirm_by))]
fn confirm_by(
    g: Settings,
    v: View,
    side: Side,
    width: u32,
    scan: u32,
    left: u32,
    again: Phase,
    sure: bool,
) -> Effect
    requires { v.worker.index < width }
    ensures { result ≡ confirm_by g v side width scan left again sure }
{
    if scan.wrapping_add(1) < width {
        moved(g, v, next(width, v.worker.index), again, v.kept)
    } else {
        confirmed(g, v, side, width, left, sure)
    }
}

// Whether the put window is the one seen; where windows have no sizes of their own, nothing is asked.
#[tactic(auto, unfolding(laws::specs::Choice::cond, rules::specs::Limits::windowed))]
fn same_top(g: Settings, v: View, window: Span) -> bool
    ensures { result ≡ same_top g v window }
{
    g.edition < WINDOWED || v.top == window.top
}

#[tactic(auto, unfolding(rules::specs::Confirm::queue_confirm))]
pub fn queue_confirm(g: Settings, v: View, window: Span, scan: u32, sum: u32) -> Effect
    requires { v.worker.index < window.width }
    ensures { result ≡ queue_confirm g v window scan sum }
{
    let q = queue_view(v);
    let left = sum.wrapping_sub(level_of(g, q.last_put, window.bottom));
    let again = Phase::QueueConfirm {
        window,
        scan: scan.wrapping_add(1),
        sum: left,
    };
    let sure = left == 0 && same_top(g, v, window);
    confirm_by(g, v, Side::Taking, window.width, scan, left, again, sure)
}

#[tactic(auto, unfolding(rules::specs::Confirm::stack_confirm))]
pub fn stack_confirm(g: Settings, v: View, side: Side, scan: u32, sum: u32) -> Effect
    requires { v.worker.index < g.width }
    ensures { result ≡ stack_confirm g v side scan sum }
{
    let s = stack_view(v);
    let left = sum.wrapping_sub(s.sub_version.0);
    let again = Phase::StackConfirm {
        side,
        scan: scan.wrapping_add(1),
        sum: left,
    };
    confirm_by(g, v, side, g.width, scan, left, again, left == 0)
}
