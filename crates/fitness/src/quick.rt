// The check before a call. What a pool has where no size was set is asked for first, and all of a rule only where that is not so. The windows come last: the
// compiler keeps what the looks at subs and workers go by in registers, which those at the windows want for themselves.
ghost use Rattle.std.specs.Prelude.{◌≡◌, ◌<◌, ◌≤◌, length};
ghost use Rattle.rules.specs.Fit.{body_checked, head_checked, fitness_of};
ghost use Rattle.rules.specs.Layout.{head_words, settings_of};
ghost use Rattle.rules.specs.Limits.{Bounds};
ghost use Rattle.rules.specs.Make.{shipped};
ghost use Rattle.rules.specs.declared.Refusal.TheVariants.{NotFit};

use crate::refusals::check_body;
use image::{as_shipped, in_edition, words_needed};
use limits::settings_fit;
use queue_windows::size_set;
use quick_fitness::{plain_subs, plain_windows};
use rules::numbers::SHIPPED;
use rules::{Refusal, Settings};
use worker_fitness::every_fit;

// Why what is behind the head is not fit, if it is not: by quick looks where no size was set, and by the whole check of it where they do not tell,
// which is handed the words alone, in a new slice, and reads the settings itself. Handed to it, they would be kept for it at every call.
fn quick_body(words: &[u32], g: Settings) -> Result<(), Refusal>
    requires bounds { Bounds g }
    requires head_words_in_bounds { (head_words ≤ length words.now) × (g.edition ≡ shipped) }
    requires settings_value { g ≡ settings_of words.now }
    ensures { result ≡ fitness_of (body_checked words.now g) }
{
    if words.len() < words_needed(g) {
        return Err(Refusal::TooFewWords);
    }
    if size_set(words, g) == 0
        && plain_subs(words, g)
        && every_fit(words, g)
        && plain_windows(words, g)
    {
        return Ok(());
    }
    check_body(&words[..])
}

// The same with the head, of the shipped edition, which is told to the compiler.
pub fn check_shipped(words: &[u32], g: Settings) -> Result<(), Refusal>
    requires { (head_words ≤ length words.now) × (g ≡ settings_of words.now) }
    ensures { result ≡ fitness_of (head_checked NotFit shipped words.now g) }
{
    if settings_fit(in_edition(g, SHIPPED)) && g.edition == SHIPPED {
        return quick_body(words, as_shipped(g));
    }
    Err(Refusal::NotFit)
}
