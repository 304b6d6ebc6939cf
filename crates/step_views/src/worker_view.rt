// What a step reads.
ghost use Rattle.std.specs.Prelude.{◌≡◌, ◌+◌, ◌≤◌, length};
ghost use Rattle.phases.specs.Late.{Late};
ghost use Rattle.rules.specs.Effects.{view_of};
ghost use Rattle.rules.specs.Layout.{sub_at, sub_words};
ghost use Rattle.rules.specs.Worker.{slot_at, phase_of};
ghost use Rattle.step_views.specs.Asked.{asked};
ghost use Rattle.step_views.specs.ByPhase.{Ready, view_in};

use crate::sizes::sizes_for;
use image::{MARK, PUTS, TOP, sub_of};
use rules::{Phase, Settings, Sizes, Slot, View, Worker};
use slots::load;
use worker::worker_of;

// What a worker reads whose words are `kept`, in a phase and with the sizes that it asks for.
pub fn view_in(words: &[u32], kept: Slot, phase: Phase, sizes: Sizes) -> View
    requires { sub_at kept.index + sub_words ≤ length words.now }
    ensures { result ≡ view_in words.now kept phase sizes }
{
    let s = sub_of(words, kept.index);
    View {
        top: words[TOP],
        mark: words[MARK],
        sizes,
        puts: words[PUTS],
        first: s.first,
        second: s.second,
        worker: Worker {
            value: kept.value,
            index: kept.index,
            phase,
        },
        kept,
    }
}

// What the worker whose words start at `at` reads in a late phase.
pub fn view(words: &[u32], g: Settings, at: usize) -> View
    requires ready { Ready g words.now at }
    requires late { Late (phase_of g (slot_at g words.now at)) }
    ensures { result ≡ asked (view_of words.now g at) }
{
    let kept = load(words, g, at);
    let worker = worker_of(g, kept);
    let phase = worker.phase;
    let sizes = sizes_for(words, g, phase);
    view_in(words, kept, phase, sizes)
}
