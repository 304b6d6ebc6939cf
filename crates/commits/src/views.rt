// What the rules read of a view, by its names for a rule.
ghost use Rattle.std.specs.Prelude.{◌≡◌};
ghost use Rattle.rules.specs.Effects.{queue_view, stack_view};

use rules::{QueueView, StackView, Version, View};
use worker::span_of;

// Stays: functions: a `From` of a view would stand in rules, where the types are, and `span_of` stands above it.
pub fn queue_view(v: View) -> QueueView
    ensures { result ≡ queue_view v }
{
    let sizes = v.sizes;
    QueueView {
        put: span_of(v.top, sizes.put),
        take: span_of(v.mark, sizes.take),
        next: sizes.next.depth,
        after: sizes.after.depth,
        live: sizes.live,
        last_put: v.first,
        last_taken: v.second,
    }
}

pub fn stack_view(v: View) -> StackView
    ensures { result ≡ stack_view v }
{
    StackView {
        window: v.top,
        version: Version(v.mark),
        items_held: v.first,
        sub_version: Version(v.second),
    }
}
