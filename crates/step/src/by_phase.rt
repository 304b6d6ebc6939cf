// A step of a worker by its phase. The phase's number is read first. In the window phase, the reads and the commits, which every operation goes through, it
// says which of the worker's other words a rule reads, and no others are; the late phases read them all. Each of these steps is called in one place, so that
// the compiler inlines it there.
ghost use Rattle.std.specs.Prelude.{false, ◌≡◌, eqb, get_or};
ghost use Rattle.phases.specs.Late.{Late};
ghost use Rattle.rules.specs.Answers.{out};
ghost use Rattle.rules.specs.Layout.{phase_at};
ghost use Rattle.rules.specs.Worker.{commit_phase, number_for, phase_of, read_phase, slot_at, window_phase};
ghost use Rattle.step_views.specs.ByPhase.{Loaded, Ready, effect_by, rule_step};

use crate::apply::{apply, apply_commit};
use commits::{queue_commit, stack_commit};
use phases::read::{queue_put_read, queue_take_read, stack_read};
use phases::rule::rule;
use phases::window::window;
use rules::numbers::{COMMIT, READ, TAKE_COMMIT, TAKE_READ, TAKE_WINDOW, WINDOW};
use rules::{Answer, Effect, Phase, Refusal, Settings, Side, Slot, Version};
use slots::{index_of, load, phase_number, put_worker};
use step_views::{commit_sizes, look_sizes, no_sizes, view, view_in};
use worker::{seen_by, side_of};

// The window phase: the worker looks at a window.
fn look_effect(words: &[u32], g: Settings, kept: Slot, side: Side) -> Effect
    requires loaded { Loaded g words.now kept }
    requires number_value { kept.number ≡ number_for side window_phase }
    ensures { result ≡ effect_by words.now g kept }
{
    let sizes = look_sizes(words, g, side);
    let v = view_in(words, kept, Phase::Window(side), sizes);
    window(g, v, side)
}

// Stays: a look, a read and a commit are functions of their own, each called in one place, so that the compiler inlines it there.
fn look(words: &mut [u32], g: Settings, at: usize, side: Side) -> Result<Answer, Refusal>
    requires ready { Ready g words.old at }
    requires at_value { get_or words.old (phase_at at) 0 ≡ number_for side window_phase }
    ensures { out result words.new ≡ rule_step words.old g at }
{
    let kept = load(words, g, at);
    let e = look_effect(words, g, kept, side);
    put_worker(words, g, at, e);
    Ok(Answer::Moving)
}

// The read phase: the worker reads a sub.
fn put_read_effect(words: &[u32], g: Settings, kept: Slot) -> Effect
    requires loaded { Loaded g words.now kept }
    requires kind_value { (g.kind ≡ 0) × (kept.number ≡ number_for Side.Putting read_phase) }
    ensures { result ≡ effect_by words.now g kept }
{
    let window = seen_by(g, kept);
    let scan = kept.scan;
    let phase = Phase::QueuePutRead { window, scan };
    let v = view_in(words, kept, phase, no_sizes());
    queue_put_read(g, v, window, scan)
}

fn take_read_effect(words: &[u32], g: Settings, kept: Slot) -> Effect
    requires loaded { Loaded g words.now kept }
    requires kind_value { (g.kind ≡ 0) × (kept.number ≡ number_for Side.Taking read_phase) }
    ensures { result ≡ effect_by words.now g kept }
{
    let window = seen_by(g, kept);
    let bare = kept.extra;
    let scan = kept.scan;
    let sum = kept.sum;
    let phase = Phase::QueueTakeRead {
        window,
        bare,
        scan,
        sum,
    };
    let v = view_in(words, kept, phase, no_sizes());
    queue_take_read(g, v, window, bare, scan, sum)
}

fn stack_read_effect(words: &[u32], g: Settings, kept: Slot, side: Side) -> Effect
    requires loaded { Loaded g words.now kept }
    requires kind_value { (eqb g.kind 0 ≡ false) × (kept.number ≡ number_for side read_phase) }
    ensures { result ≡ effect_by words.now g kept }
{
    let window = kept.window;
    let version = Version(kept.extra);
    let scan = kept.scan;
    let sum = kept.sum;
    let phase = Phase::StackRead {
        side,
        window,
        version,
        scan,
        sum,
    };
    let v = view_in(words, kept, phase, no_sizes());
    stack_read(g, v, side, window, version, scan, sum)
}

fn read_effect(words: &[u32], g: Settings, kept: Slot, side: Side) -> Effect
    requires loaded { Loaded g words.now kept }
    requires number_value { kept.number ≡ number_for side read_phase }
    ensures { result ≡ effect_by words.now g kept }
{
    if g.kind == 0 {
        match side {
            Side::Putting => put_read_effect(words, g, kept),
            Side::Taking => take_read_effect(words, g, kept),
        }
    } else {
        stack_read_effect(words, g, kept, side)
    }
}

fn read(words: &mut [u32], g: Settings, at: usize, side: Side) -> Result<Answer, Refusal>
    requires ready { Ready g words.old at }
    requires at_value { get_or words.old (phase_at at) 0 ≡ number_for side read_phase }
    ensures { out result words.new ≡ rule_step words.old g at }
{
    let kept = load(words, g, at);
    let e = read_effect(words, g, kept, side);
    put_worker(words, g, at, e);
    Ok(Answer::Moving)
}

// The commit phase.
fn queue_commit_effect(words: &[u32], g: Settings, kept: Slot, side: Side) -> Effect
    requires loaded { Loaded g words.now kept }
    requires kind_value { (g.kind ≡ 0) × (kept.number ≡ number_for side commit_phase) }
    ensures { result ≡ effect_by words.now g kept }
{
    let window = seen_by(g, kept);
    let seen = kept.seen;
    let phase = Phase::QueueCommit { side, window, seen };
    let sizes = commit_sizes(words, g, side);
    let v = view_in(words, kept, phase, sizes);
    queue_commit(g, v, side, window, seen)
}

fn stack_commit_effect(words: &[u32], g: Settings, kept: Slot, side: Side) -> Effect
    requires loaded { Loaded g words.now kept }
    requires kind_value { (eqb g.kind 0 ≡ false) × (kept.number ≡ number_for side commit_phase) }
    ensures { result ≡ effect_by words.now g kept }
{
    let seen = Version(kept.seen);
    let phase = Phase::StackCommit { side, seen };
    let v = view_in(words, kept, phase, no_sizes());
    stack_commit(g, v, side, seen)
}

fn commit_effect(words: &[u32], g: Settings, kept: Slot, side: Side) -> Effect
    requires loaded { Loaded g words.now kept }
    requires number_value { kept.number ≡ number_for side commit_phase }
    ensures { result ≡ effect_by words.now g kept }
{
    if g.kind == 0 {
        queue_commit_effect(words, g, kept, side)
    } else {
        stack_commit_effect(words, g, kept, side)
    }
}

fn commit(words: &mut [u32], g: Settings, at: usize, side: Side) -> Result<Answer, Refusal>
    requires ready { Ready g words.old at }
    requires at_value { get_or words.old (phase_at at) 0 ≡ number_for side commit_phase }
    ensures { out result words.new ≡ rule_step words.old g at }
{
    let kept = load(words, g, at);
    let e = commit_effect(words, g, kept, side);
    apply_commit(words, g, at, kept.index, e)
}

// A late phase: the shift and the confirm, after a pass that found no sub, and a stack's check.
fn late(words: &mut [u32], g: Settings, at: usize) -> Result<Answer, Refusal>
    requires ready { Ready g words.old at }
    requires late { Late (phase_of g (slot_at g words.old at)) }
    ensures { out result words.new ≡ rule_step words.old g at }
{
    let j = index_of(words, at);
    let v = view(words, g, at);
    let e = rule(g, v);
    apply(words, g, at, j, e)
}

// The phase's rule, and what it writes.
pub fn phase_step(words: &mut [u32], g: Settings, at: usize) -> Result<Answer, Refusal>
    requires { Ready g words.old at }
    ensures { out result words.new ≡ rule_step words.old g at }
{
    let number = phase_number(words, at);
    let side = side_of(number);
    match number {
        WINDOW | TAKE_WINDOW => look(words, g, at, side),
        READ | TAKE_READ => read(words, g, at, side),
        COMMIT | TAKE_COMMIT => commit(words, g, at, side),
        _ => late(words, g, at),
    }
}
