// The failed commits of a pool's workers.
ghost use Rattle.std.specs.Prelude.{◌≡◌};
ghost use Rattle.rules.specs.Fit.{FitPool};
ghost use Rattle.rules.specs.Make.{shipped};
ghost use Rattle.printing.specs.Lost.{lost_below, lost_of};

use fitness::fit_settings;
use image::worker_at;
use rules::Settings;
use slots::lost_of;

// Those of a fit pool, worker by worker.
fn fit_lost(words: &[u32], g: Settings) -> u64
    requires fit_pool { FitPool g words.now }
    requires shipped_edition { g.edition ≡ shipped }
    ensures { result ≡ lost_below words.now g g.workers }
{
    let mut n: u64 = 0;
    for i in 0..g.workers {
        n += u64::from(lost_of(words, worker_at(g, i)));
    }
    n
}

// Those of all workers; none of words that are no fit pool.
pub fn lost(words: &[u32]) -> u64
    ensures { result ≡ lost_of shipped words.now }
{
    match fit_settings(words) {
        Ok(g) => fit_lost(words, g),
        Err(_) => 0,
    }
}
