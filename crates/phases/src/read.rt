// The read phase.
ghost use Rattle.std.specs.Prelude.{◌≡◌, ◌<◌, ltb};
ghost use Rattle.laws.specs.Choice.{cond};
ghost use Rattle.laws.specs.Wrap.{add32};
ghost use Rattle.rules.specs.Read.{miss_of, queue_put_read, after_takes, queue_take_miss, queue_take_read, stack_hit, stack_read};

use commits::views::{queue_view, stack_view};
use effects::{moved, next, with_pass};
use rules::{Effect, Phase, Settings, Side, Slot, Span, Version, View};
use worker::level_of;

// The phase after a miss: `again` to read on, or `after` at so many misses.
#[tactic(auto, unfolding(laws::specs::Choice::cond))]
fn missed(width: u32, scan: u32, again: Phase, after: Phase) -> Phase
    ensures { result ≡ cond (ltb (add32 scan 1) width) again after }
{
    if scan.wrapping_add(1) < width {
        again
    } else {
        after
    }
}

// To the next sub. The phase is picked first, so that the worker is written in one place: written in two, this function is
// too long to be inlined, and steps are slower.
#[tactic(auto, unfolding(laws::specs::Choice::cond, rules::specs::Read::miss_of))]
fn miss(
    g: Settings,
    width: u32,
    v: View,
    scan: u32,
    again: Phase,
    after: Phase,
    kept: Slot,
) -> Effect
    requires { v.worker.index < width }
    ensures { result ≡ miss_of g width v scan again after kept }
{
    let index = next(width, v.worker.index);
    moved(g, v, index, missed(width, scan, again, after), kept)
}

#[tactic(auto, unfolding(laws::specs::Choice::cond, rules::specs::Read::queue_put_read))]
pub fn queue_put_read(g: Settings, v: View, window: Span, scan: u32) -> Effect
    requires { v.worker.index < window.width }
    ensures { result ≡ queue_put_read g v window scan }
{
    let q = queue_view(v);
    let side = Side::Putting;
    let seen = q.last_put;
    if seen < window.top {
        let commit = Phase::QueueCommit { side, window, seen };
        return moved(g, v, v.worker.index, commit, v.kept);
    }
    let again = Phase::QueuePutRead {
        window,
        scan: scan.wrapping_add(1),
    };
    let after = Phase::QueueShift { side, window };
    let pass = with_pass(v.kept, v.kept.extra, 0, v.kept.sum);
    miss(g, window.width, v, scan, again, after, pass)
}

// All subs missed by a take.
#[tactic(auto, unfolding(laws::specs::Choice::cond))]
fn after_takes(window: Span, bare: u32, sum: u32) -> Phase
    ensures { result ≡ after_takes window bare sum }
{
    if bare == 0 {
        Phase::QueueShift {
            side: Side::Taking,
            window,
        }
    } else {
        Phase::QueueConfirm {
            window,
            scan: 0,
            sum,
        }
    }
}

fn queue_take_miss(g: Settings, v: View, window: Span, bare: u32, scan: u32, sum: u32) -> Effect
    requires { v.worker.index < window.width }
    ensures { result ≡ queue_take_miss g v window bare scan sum }
{
    let again = Phase::QueueTakeRead {
        window,
        bare,
        scan: scan.wrapping_add(1),
        sum,
    };
    let after = after_takes(window, bare, sum);
    let pass = with_pass(v.kept, bare, 0, sum);
    miss(g, window.width, v, scan, again, after, pass)
}

#[tactic(auto, unfolding(laws::specs::Choice::cond, rules::specs::Read::queue_take_read))]
pub fn queue_take_read(g: Settings, v: View, window: Span, bare: u32, scan: u32, sum: u32) -> Effect
    requires { v.worker.index < window.width }
    ensures { result ≡ queue_take_read g v window bare scan sum }
{
    let q = queue_view(v);
    let side = Side::Taking;
    let seen = q.last_taken;
    let total = sum.wrapping_add(level_of(g, q.last_put, window.bottom));
    if window.top <= seen {
        return queue_take_miss(g, v, window, bare, scan, total);
    }
    if q.last_put == seen {
        return queue_take_miss(g, v, window, bare.wrapping_add(1), scan, total);
    }
    let pass = with_pass(v.kept, bare, scan, total);
    let commit = Phase::QueueCommit { side, window, seen };
    moved(g, v, v.worker.index, commit, pass)
}

fn stack_hit(g: Settings, v: View, side: Side, window: u32) -> bool
    ensures { result ≡ stack_hit g v side window }
{
    let s = stack_view(v);
    match side {
        Side::Putting => s.items_held < window,
        Side::Taking => window.wrapping_sub(g.depth) < s.items_held,
    }
}

#[tactic(auto, unfolding(laws::specs::Choice::cond, rules::specs::Read::stack_read))]
pub fn stack_read(
    g: Settings,
    v: View,
    side: Side,
    window: u32,
    version: Version,
    scan: u32,
    sum: u32,
) -> Effect
    requires { v.worker.index < g.width }
    ensures { result ≡ stack_read g v side window version scan sum }
{
    let s = stack_view(v);
    let seen = s.sub_version;
    let total = sum.wrapping_add(seen.0);
    if stack_hit(g, v, side, window) {
        let check = Phase::Check {
            side,
            version,
            seen,
        };
        let pass = with_pass(v.kept, version.0, scan, total);
        return moved(g, v, v.worker.index, check, pass);
    }
    let again = Phase::StackRead {
        side,
        window,
        version,
        scan: scan.wrapping_add(1),
        sum: total,
    };
    let after = Phase::StackShift {
        side,
        version,
        scan: 0,
        sum: total,
    };
    miss(g, g.width, v, scan, again, after, v.kept)
}
