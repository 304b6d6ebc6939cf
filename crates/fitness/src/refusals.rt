// The order of the refusals before a call, and of a move's source.
ghost use Rattle.std.specs.Prelude.{◌≡◌, ◌≤◌, length};
ghost use Rattle.rules.specs.Fit.{body_checked, head_checked, checked_by, checked_of, source_checked, fitness_of, settings_found};
ghost use Rattle.rules.specs.Layout.{head_words, settings_of};
ghost use Rattle.rules.specs.Limits.{Bounds};
ghost use Rattle.rules.specs.Make.{shipped};

use crate::quick::check_shipped;
use image::{HEAD_WORDS, in_edition, settings, shipped_settings, words_needed};
use limits::settings_fit;
use rules::numbers::SHIPPED;
use rules::{Refusal, Settings};
use shared_fitness::shared_fit;
use worker_fitness::workers_fit;

// The words needed, then what the workers share, then the workers.
pub fn check_body(words: &[u32]) -> Result<(), Refusal>
    requires { (head_words ≤ length words.now) × Bounds (settings_of words.now) }
    ensures { result ≡ fitness_of (body_checked words.now (settings_of words.now)) }
{
    let g = settings(words);
    if words.len() < words_needed(g) {
        return Err(Refusal::TooFewWords);
    }
    if shared_fit(words, g) && workers_fit(words, g) {
        return Ok(());
    }
    Err(Refusal::NotFit)
}

// The settings by the edition asked for, then the edition, which has a refusal of its own to tell another, then the above.
fn check_head(words: &[u32], g: Settings, edition: u32, other: Refusal) -> Result<(), Refusal>
    requires { (head_words ≤ length words.now) × (g ≡ settings_of words.now) }
    ensures { result ≡ fitness_of (head_checked other edition words.now g) }
{
    if !settings_fit(in_edition(g, edition)) {
        return Err(Refusal::NotFit);
    }
    if g.edition != edition {
        return Err(other);
    }
    check_body(words)
}

fn check_by(words: &[u32], edition: u32, other: Refusal) -> Result<(), Refusal>
    ensures { result ≡ fitness_of (checked_by other edition words.now) }
{
    if words.len() < HEAD_WORDS {
        return Err(Refusal::TooFewWords);
    }
    check_head(words, settings(words), edition, other)
}

// Why the words are no fit pool of an edition, if they are none. It hands on no settings: a struct would go through memory at every call.
pub fn check(words: &[u32], edition: u32) -> Result<(), Refusal>
    ensures { result ≡ fitness_of (checked_of edition words.now) }
{
    check_by(words, edition, Refusal::NotFit)
}

// The same by quick looks, and by all of the above where they do not tell. It is for the one function behind all begins and steps, which it becomes a part of:
// called from a second place it would be a part of neither.
pub fn quick_check(words: &[u32], edition: u32) -> Result<(), Refusal>
    ensures { result ≡ fitness_of (checked_of edition words.now) }
{
    if words.len() < HEAD_WORDS {
        return Err(Refusal::TooFewWords);
    }
    if edition == SHIPPED {
        return check_shipped(words, settings(words));
    }
    check(words, edition)
}

// The same of the source of a move from an edition, in full.
pub fn check_source(words: &[u32], edition: u32) -> Result<(), Refusal>
    ensures { result ≡ fitness_of (source_checked edition words.now) }
{
    check_by(words, edition, Refusal::WrongEdition)
}

// The settings of a fit pool of the shipped edition. It becomes a part of its callers: else the settings would go through memory at every call, and the
// compiler would not know their edition.
#[inline(always)]
pub fn fit_settings(words: &[u32]) -> Result<Settings, Refusal>
    ensures { result ≡ settings_found (checked_of shipped words.now) }
{
    check(words, SHIPPED)?;
    Ok(shipped_settings(words))
}
