// The words behind the cells that a move leaves: of a queue that is given windows of their own sizes they are of the pool's size, and every other one is zero.
ghost use Rattle.std.specs.Prelude.{◌≡◌, true, [], ◌∷◌, ◌+◌, ◌≤◌, ◌<◌, length};
ghost use Rattle.std.proofs.lemmas.List.Edits.{sets};
ghost use Rattle.rules.specs.Layout.{top_at, windows_at, pair_at, needed};
ghost use Rattle.rules.specs.Limits.{Bounds, most_live};
ghost use Rattle.turnaround.specs.Move.{own_live, own_pairs, windows_moved};
ghost use Rattle.rules.specs.Windows.{has_windows};

use image::{MARK, PAIR_WORDS, PAIRS, SIZE_SET, TOP, put_pair, windows_at, windows_words};
use queue_windows::has_windows;
use rules::Settings;

// How many windows of the pool's depth there are from the take window to the put window.
fn own_live(from: &[u32], h: Settings) -> u32
    requires bounds { Bounds h }
    requires words_in_bounds { (top_at + 1 < length from.now) × (own_live from.now h ≤ most_live) }
    ensures { result ≡ own_live from.now h }
{
    from[TOP].saturating_sub(from[MARK]) / h.depth + 1
}

// Gives so many live windows the pool's size.
fn put_pairs(to: &mut [u32], h: Settings, live: u32)
    requires bounds { Bounds h }
    requires pairs_in_bounds { (pair_at h most_live ≤ length to.old) × (live ≤ most_live) }
    ensures { to.new ≡ own_pairs to.old h live }
{
    let at = windows_at(h) + PAIRS;
    for k in 0..live {
        put_pair(to, at + PAIR_WORDS * k as usize, h.width, h.depth);
    }
}

// Gives a queue its next size, and its live windows.
fn put_windows(to: &mut [u32], h: Settings, live: u32)
    requires bounds { Bounds h }
    requires pairs_in_bounds { (pair_at h most_live ≤ length to.old) × (live ≤ most_live) }
    ensures { to.new ≡ own_pairs (sets to.old (windows_at h) (h.width ∷ h.depth ∷ 0 ∷ live ∷ [])) h live }
{
    let at = windows_at(h);
    put_pair(to, at, h.width, h.depth);
    put_pair(to, at + SIZE_SET, 0, live);
    put_pairs(to, h, live);
}

// The words behind the cells.
pub fn move_windows(from: &[u32], to: &mut [u32], h: Settings)
    requires bounds { Bounds h }
    requires words_in_bounds { (top_at + 1 < length from.now) × (needed h ≤ length to.old) }
    requires live_in_bounds { has_windows h ≡ true → own_live from.now h ≤ most_live }
    ensures { to.new ≡ windows_moved from.now to.old h }
{
    let at = windows_at(h);
    to[at..at + windows_words(h.edition)].fill(0);
    if has_windows(h) {
        put_windows(to, h, own_live(from, h));
    }
}
