// What is counted over the events of a file.
#![tactic(auto)]

ghost use Rattle.std.specs.Prelude.{◌≡◌};
ghost use Rattle.rules.specs.Limits.{Bounds};
ghost use Rattle.rules.specs.Run.{distance_by};
ghost use Rattle.rules.specs.Sequential.{most_passed};
ghost use Rattle.runfile.specs.declared.item.Item.TheVariants.{Says};
ghost use Rattle.tally.specs.Tally.{bound_in, passed_in, bound_after, counted_by};

use image::in_edition;
use limits::settings_fit;
use replay::Done;
use rules::numbers::SHIPPED;
use rules::{Answer, RefusalNumber, Settings};
use runfile::item::Said;
use step::answers::number;

// How many operations were put, taken, empty and full, how many calls were refused, the greatest distance, and the bound on one.
#[derive(Clone, Copy, Default)]
pub struct Tally {
    pub puts: u64,
    pub takes: u64,
    pub empties: u64,
    pub fulls: u64,
    pub refused: u64,
    pub worst: u32,
    pub bound: u32,
}

// Demand 3's bound.
#[tactic(auto, unfolding(rules::specs::Sequential::most_passed, laws::specs::Choice::cond))]
fn most_passed(g: Settings) -> u32
    requires { Bounds g }
    ensures { result ≡ most_passed g }
{
    let row = if g.kind == 0 {
        g.depth
    } else {
        2 * g.depth + 2 * g.shift
    };
    (g.width - 1) * row
}

// The bound of a pool that can be made; a file's is of the shipped edition. It stays a call, once in a file: inlined, it would have the compiler lay
// what is told of every word out as these settings' words.
#[inline(never)]
pub fn bound_in(g: Settings) -> u32
    ensures { result ≡ bound_in g }
{
    let made = in_edition(g, SHIPPED);
    if settings_fit(made) {
        most_passed(made)
    } else {
        0
    }
}

// What a take from a window of a size may pass over.
fn passed_in(width: u8, depth: u8) -> u32
    ensures { result ≡ passed_in (record { width = width; depth = depth }) }
{
    u32::from(width).saturating_sub(1) * u32::from(depth)
}

// The bound after a word that is neither of the first two and has an answer of this number: a size that is set may raise it.
#[tactic(auto, unfolding(laws::specs::Choice::cond))]
fn bound_after(bound: u32, said: Said, number: u32) -> u32
    ensures { result ≡ bound_after bound (Says said) number }
{
    match (said, number) {
        (Said::SetSize { width, depth }, 0) => bound.max(passed_in(width, depth)),
        _ => bound,
    }
}

// The distance that an answer names, or 0.
fn distance_in<R: RefusalNumber>(answer: Result<Answer, R>) -> u32
    ensures { result ≡ distance_by answer }
{
    match answer {
        Ok(Answer::Taken { distance, .. }) => distance,
        _ => 0,
    }
}

// The tally with an event.
#[tactic(auto, unfolding(crate::specs::Tally::counted_by, laws::specs::Choice::cond))]
pub fn count<R: RefusalNumber>(t: Tally, d: Done<R>) -> Tally
    ensures { result ≡ counted_by R.number t d }
{
    let n = number(d.answer);
    let t = Tally {
        worst: t.worst.max(distance_in(d.answer)),
        bound: bound_after(t.bound, d.said, n),
        ..t
    };
    match n {
        0 => t,
        1 => Tally {
            puts: t.puts.wrapping_add(1),
            ..t
        },
        2 => Tally {
            takes: t.takes.wrapping_add(1),
            ..t
        },
        3 => Tally {
            empties: t.empties.wrapping_add(1),
            ..t
        },
        4 => Tally {
            fulls: t.fulls.wrapping_add(1),
            ..t
        },
        _ => Tally {
            refused: t.refused.wrapping_add(1),
            ..t
        },
    }
}
