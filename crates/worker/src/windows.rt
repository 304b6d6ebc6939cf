// A queue's windows, and the row that a put or a take goes above.
ghost use Rattle.std.specs.Prelude.{◌≡◌};
ghost use Rattle.rules.specs.Windows.{size_of, span_of, level_of};

use rules::numbers::WINDOWED;
use rules::{Settings, Size, Span};

// The pool's own size.
pub fn size_of(g: Settings) -> Size
    ensures { result ≡ size_of g }
{
    Size {
        width: g.width,
        depth: g.depth,
    }
}

// A window with its top.
pub fn span_of(top: u32, size: Size) -> Span
    ensures { result ≡ span_of top size }
{
    Span {
        top,
        bottom: top.wrapping_sub(size.depth),
        width: size.width,
    }
}

// The higher of a sub's last row and a window's bottom. Where a sub's words are counts, the row above so many items is the next.
#[tactic(auto, unfolding(laws::specs::Choice::cond, rules::specs::Limits::windowed, rules::specs::Windows::level_of))]
pub fn level_of(g: Settings, last: u32, bottom: u32) -> u32
    ensures { result ≡ level_of g last bottom }
{
    if WINDOWED <= g.edition {
        last.max(bottom)
    } else {
        last
    }
}
