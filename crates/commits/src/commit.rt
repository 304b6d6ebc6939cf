// The commit phase.
ghost use Rattle.std.specs.Prelude.{◌≡◌, ◌<◌};
ghost use Rattle.rules.specs.Commit.{commit_by, queue_put_commit, queue_take_commit, queue_commit, stack_commit};
ghost use Rattle.rules.specs.Limits.{Bounds};

use crate::views::{queue_view, stack_view};
use effects::{landed, lost, refused, removed};
use rules::{Effect, Refusal, Row, Settings, Side, Span, Version, View};
use worker::level_of;

// What a commit does that matches, if it is able to, and one that does not.
#[tactic(auto, unfolding(laws::specs::Choice::cond, rules::specs::Commit::commit_by))]
fn commit_by(g: Settings, v: View, side: Side, matches: bool, able: bool, done: Effect) -> Effect
    requires bounds { Bounds g }
    requires index_lt_width { v.worker.index < g.width }
    ensures { result ≡ commit_by g v side matches able done }
{
    if !matches {
        lost(g, v, side)
    } else if able {
        done
    } else {
        refused(v, Refusal::NotFit)
    }
}

// A put into the row above a level. A free cell is asked for in whole numbers, which do not wrap.
#[tactic(auto, unfolding(rules::specs::Commit::queue_put_commit))]
fn queue_put_commit(g: Settings, v: View, seen: u32, level: u32) -> Effect
    requires bounds { Bounds g }
    requires index_lt_width { v.worker.index < g.width }
    ensures { result ≡ queue_put_commit g v seen level }
{
    let q = queue_view(v);
    let taken = q.last_taken;
    let bottom = level_of(g, taken, q.take.bottom);
    let able = u64::from(level) < u64::from(bottom) + u64::from(g.rows);
    let above = level.wrapping_add(1);
    let done = landed(g, v, above, taken, Row(above));
    commit_by(g, v, Side::Putting, q.last_put == seen, able, done)
}

// A take from the row above a level.
#[tactic(auto, unfolding(rules::specs::Commit::queue_take_commit))]
fn queue_take_commit(g: Settings, v: View, seen: u32, level: u32) -> Effect
    requires bounds { Bounds g }
    requires index_lt_width { v.worker.index < g.width }
    ensures { result ≡ queue_take_commit g v seen level }
{
    let q = queue_view(v);
    let put = q.last_put;
    let above = level.wrapping_add(1);
    let done = removed(g, v, put, above, Row(above));
    commit_by(g, v, Side::Taking, q.last_taken == seen, level < put, done)
}

#[tactic(auto, unfolding(rules::specs::Commit::queue_commit))]
pub fn queue_commit(g: Settings, v: View, side: Side, window: Span, seen: u32) -> Effect
    requires bounds { Bounds g }
    requires index_lt_width { v.worker.index < g.width }
    ensures { result ≡ queue_commit g v side window seen }
{
    let q = queue_view(v);
    match side {
        Side::Putting => {
            let level = level_of(g, q.last_put, window.bottom);
            queue_put_commit(g, v, seen, level)
        }
        Side::Taking => {
            let level = level_of(g, q.last_taken, window.bottom);
            queue_take_commit(g, v, seen, level)
        }
    }
}

#[tactic(auto, unfolding(rules::specs::Commit::stack_commit))]
pub fn stack_commit(g: Settings, v: View, side: Side, seen: Version) -> Effect
    requires bounds { Bounds g }
    requires index_lt_width { v.worker.index < g.width }
    ensures { result ≡ stack_commit g v side seen }
{
    let s = stack_view(v);
    let held = s.items_held;
    let matches = s.sub_version == seen;
    let version = s.sub_version.0.wrapping_add(1);
    match side {
        Side::Putting => {
            let above = held.wrapping_add(1);
            let done = landed(g, v, above, version, Row(above));
            commit_by(g, v, side, matches, held < g.rows, done)
        }
        Side::Taking => {
            let done = removed(g, v, held.wrapping_sub(1), version, Row(held));
            commit_by(g, v, side, matches, 0 < held, done)
        }
    }
}
