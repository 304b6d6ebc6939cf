// The check phase, of a stack.
ghost use Rattle.std.specs.Prelude.{◌≡◌};
ghost use Rattle.rules.specs.Check.{check_rule};

use commits::views::stack_view;
use effects::{moved, restart};
use rules::{Effect, Phase, Settings, Side, Version, View};

#[tactic(auto, unfolding(laws::specs::Choice::cond, rules::specs::Check::check_rule))]
pub fn check(g: Settings, v: View, side: Side, version: Version, seen: Version) -> Effect
    ensures { result ≡ check_rule g v side version seen }
{
    let s = stack_view(v);
    if s.version == version {
        let commit = Phase::StackCommit { side, seen };
        moved(g, v, v.worker.index, commit, v.kept)
    } else {
        restart(g, v, v.worker.index, side)
    }
}
