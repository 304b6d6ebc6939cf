// Which rule a late phase takes: the check, the shifts and the confirms. A step calls the rules of the other phases itself, by the phase's number.
ghost use Rattle.std.specs.Prelude.{◌≡◌, ◌<◌};
ghost use Rattle.rules.specs.Limits.{Bounds};
ghost use Rattle.rules.specs.Step.{rule_of};
ghost use Rattle.phases.specs.Inside.{Inside};
ghost use Rattle.phases.specs.Late.{Late};

use crate::check::check;
use effects::refused;
use misses::{queue_confirm, queue_shift, stack_confirm, stack_shift};
use rules::{Effect, Phase, Refusal, Settings, View};

#[tactic(auto, unfolding(rules::specs::Step::rule_of, rules::specs::Step::rule_by))]
pub fn rule(g: Settings, v: View) -> Effect
    requires bounds { Bounds g }
    requires index_lt_width { v.worker.index < g.width }
    requires inside { Inside v }
    requires late { Late v.worker.phase }
    ensures { result ≡ rule_of g v }
{
    match v.worker.phase {
        Phase::Idle => refused(v, Refusal::WorkerIdle),
        Phase::Check {
            side,
            version,
            seen,
        } => check(g, v, side, version, seen),
        Phase::QueueShift { side, window } => queue_shift(g, v, side, window),
        Phase::StackShift {
            side,
            version,
            scan,
            sum,
        } => stack_shift(g, v, side, version, scan, sum),
        Phase::QueueConfirm { window, scan, sum } => queue_confirm(g, v, window, scan, sum),
        Phase::StackConfirm { side, scan, sum } => stack_confirm(g, v, side, scan, sum),
        // Not late: no caller has these.
        Phase::Window(_)
        | Phase::QueuePutRead { .. }
        | Phase::QueueTakeRead { .. }
        | Phase::StackRead { .. }
        | Phase::QueueCommit { .. }
        | Phase::StackCommit { .. } => unreachable!(),
    }
}
