// The size call: the size of put windows from the next one on.
ghost use Rattle.std.specs.Prelude.{◌≡◌, ◌<◌, length};
ghost use Rattle.rules.specs.Answers.{out};
ghost use Rattle.rules.specs.Fit.{FitPool};
ghost use Rattle.rules.specs.Layout.{set_at};
ghost use Rattle.rules.specs.Limits.{Bounds};
ghost use Rattle.rules.specs.Make.{shipped};
ghost use Rattle.rules.specs.Resize.{put_size, fit_set_size, set_size_of};

use fitness::fit_settings;
use image::{NEXT_DEPTH, NEXT_WIDTH, SIZE_SET, windows_at};
use limits::size_fit;
use rules::{Answer, Refusal, Settings, Size};

// Writes the size of the next put window, and that one was set.
fn put_size(words: &mut [u32], g: Settings, size: Size)
    requires bounds { Bounds g }
    requires g_in_bounds { set_at g < length words.old }
    ensures { words.new ≡ put_size words.old g size }
{
    let at = windows_at(g);
    words[at + NEXT_WIDTH] = size.width;
    words[at + NEXT_DEPTH] = size.depth;
    words[at + SIZE_SET] = 1;
}

// Of a fit pool: a stack has no sizes to set.
#[tactic(auto, unfolding(rules::specs::Resize::fit_set_size, rules::specs::Limits::windowed, laws::specs::Choice::cond))]
fn fit_set_size(words: &mut [u32], g: Settings, size: Size) -> Result<Answer, Refusal>
    requires fit_pool { FitPool g words.old }
    requires edition_shipped { g.edition ≡ shipped }
    ensures { out result words.new ≡ fit_set_size words.old g size }
{
    if g.kind != 0 || !size_fit(g, size) {
        return Err(Refusal::OffSize);
    }
    put_size(words, g, size);
    Ok(Answer::Moving)
}

// Sets the width and depth of the put windows to come. It is no step, and counts none.
pub fn set_size(words: &mut [u32], width: u32, depth: u32) -> Result<Answer, Refusal>
    ensures { out result words.new ≡ set_size_of shipped words.old (record { width = width; depth = depth }) }
{
    let g = fit_settings(words)?;
    fit_set_size(words, g, Size { width, depth })
}
