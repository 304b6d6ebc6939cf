// Quick looks at what the workers of a pool share: whether it is fit as it is where no size was set. Each window of a queue has the pool's size then, and no
// sub's last taken row is below the take window's bottom. Where a look says no, nothing is said.
ghost use Rattle.std.specs.Prelude.{◌≡◌, ℕ, ◌+◌, ◌*◌, ◌<◌, ◌≤◌, true, length, slice_index};
ghost use Rattle.quick_fitness.specs.Alike.{bits_of, bits_at, wanted_bits};
ghost use Rattle.quick_fitness.specs.Plain.{plain_bottom, subs_fit_above};
ghost use Rattle.laws.specs.Choice.{cond};
ghost use Rattle.rules.specs.Fit.{sub_fit, windows_fit};
ghost use Rattle.rules.specs.Layout.{first_of, second_of, pair_words, pair_at, windows_at, set_at, needed, head_words};
ghost use Rattle.rules.specs.Limits.{Bounds, most_live};
ghost use Rattle.rules.specs.Make.{shipped};
ghost use Rattle.rules.specs.Windows.{has_windows, bottom_of};

use image::{LIVE, MARK, NEXT_WIDTH, PAIR_WORDS, PAIRS, TOP, WINDOWS_WORDS, sub_of, windows_at};
use rules::Settings;
use rules::numbers::MOST_LIVE;
use shared_fitness::{all_in_fours, zeros};

// Two words as one number.
fn together(first: u32, second: u32) -> u64
    ensures { result ≡ bits_of first second }
{
    u64::from(first) | u64::from(second) << 32
}

// The two words from `at` on as one number: the compiler reads them together.
fn bits(words: &[u32], at: usize) -> u64
    requires { at + 1 < length words.now }
    ensures { result ≡ bits_at words.now at }
{
    together(words[at], words[at + 1])
}

// Whether the first `count` pairs from `at` on are all `x`.
fn same(words: &[u32], at: usize, count: usize, x: u64) -> bool
    requires { at + pair_words * count ≤ length words.now }
    ensures { result ≡ true → (k : ℕ) → k < count → bits_at words.now (at + pair_words * k) ≡ x }
{
    (0..count).all(|k| bits(words, at + PAIR_WORDS * k) == x)
}

// Whether the first `LIVE` pairs from `at` on are `x`, and those beyond zero. The words are looked at together from the next even pair on.
fn alike_by<const LIVE: usize>(words: &[u32], at: usize, x: u64) -> bool
    requires most_live_in_bounds { at + pair_words * most_live ≤ length words.now }
    requires live_le_most_live { LIVE ≤ most_live }
    ensures { result ≡ true → (k : ℕ) → k < most_live → bits_at words.now (at + pair_words * k) ≡ wanted_bits LIVE x k }
{
    let even = LIVE + LIVE % 2;
    same(words, at, LIVE, x)
        && same(words, at + PAIR_WORDS * LIVE, even - LIVE, 0)
        && zeros(
            words,
            at + PAIR_WORDS * even,
            at + PAIR_WORDS * MOST_LIVE as usize,
        )
}

// The same, each number of live windows by itself: the compiler makes straight code of the loops, since it knows how many turns they have.
// Stays: an arm for each number, since the argument of a const parameter is a literal.
fn alike(words: &[u32], at: usize, live: u32, x: u64) -> bool
    requires { (at + pair_words * most_live ≤ length words.now) × (1 ≤ live) × (live ≤ most_live) }
    ensures { result ≡ true → (k : ℕ) → k < most_live → bits_at words.now (at + pair_words * k) ≡ wanted_bits live x k }
{
    match live {
        1 => alike_by::<1>(words, at, x),
        2 => alike_by::<2>(words, at, x),
        3 => alike_by::<3>(words, at, x),
        4 => alike_by::<4>(words, at, x),
        5 => alike_by::<5>(words, at, x),
        6 => alike_by::<6>(words, at, x),
        7 => alike_by::<7>(words, at, x),
        8 => alike_by::<8>(words, at, x),
        9 => alike_by::<9>(words, at, x),
        10 => alike_by::<10>(words, at, x),
        11 => alike_by::<11>(words, at, x),
        12 => alike_by::<12>(words, at, x),
        13 => alike_by::<13>(words, at, x),
        14 => alike_by::<14>(words, at, x),
        15 => alike_by::<15>(words, at, x),
        _ => alike_by::<16>(words, at, x),
    }
}

// Whether a queue's windows, of which the words start at `at`, and the next one all have the pool's size, and lead from T up to P. The bottom that the subs
// were held to is then the take window's. That no size was set was asked for before.
fn plain_sizes(words: &[u32], g: Settings, at: usize) -> bool
    requires bounds { Bounds g }
    requires at_windows { (at ≡ windows_at g) × (pair_at g most_live ≤ length words.now) }
    requires shipped_queue { (g.kind ≡ 0) × (g.edition ≡ shipped) }
    requires no_size_set { slice_index words.now (set_at g) ≡ 0 }
    ensures { result ≡ true → (windows_fit words.now g ≡ true) × (plain_bottom words.now g ≡ bottom_of words.now g 0) }
{
    let live = words[at + LIVE];
    let mark = words[MARK];
    let x = together(g.width, g.depth);
    bits(words, at + NEXT_WIDTH) == x
        && (1..=MOST_LIVE).contains(&live)
        && g.depth <= mark
        && u64::from(mark - g.depth) + u64::from(live) * u64::from(g.depth) == u64::from(words[TOP])
        && alike(words, at + PAIRS, live, x)
}

// Whether the windows are so, or a stack's words of windows zero.
pub fn plain_windows(words: &[u32], g: Settings) -> bool
    requires bounds { Bounds g }
    requires g_in_bounds { (needed g ≤ length words.now) × (g.edition ≡ shipped) }
    requires no_size_set { slice_index words.now (set_at g) ≡ 0 }
    ensures { result ≡ true → (windows_fit words.now g ≡ true) × (plain_bottom words.now g ≡ cond (has_windows g) (bottom_of words.now g 0) 0) }
{
    let at = windows_at(g);
    if g.kind == 0 {
        plain_sizes(words, g, at)
    } else {
        zeros(words, at, at + WINDOWS_WORDS)
    }
}

// Whether sub `j` is fit, and of a queue its last taken row not below a bottom. Each kind reads the words for itself: read before the test, they would have
// the compiler do both tests at every sub.
// Stays: beside `sub_fit`, of which this is a quick part: it says nothing where it says no.
fn plain_sub(words: &[u32], g: Settings, bottom: u32, j: u32) -> bool
    requires { (needed g ≤ length words.now) × (j < g.width) }
    ensures { result ≡ true → sub_fit g bottom (first_of words.now j) (second_of words.now j) ≡ true }
{
    if g.kind == 0 {
        let sub = sub_of(words, j);
        bottom <= sub.second
            && u64::from(sub.first).wrapping_sub(u64::from(sub.second)) <= u64::from(g.rows)
    } else {
        sub_of(words, j).first <= g.rows
    }
}

// The bottom of the take window, if it has the pool's depth: no sub is below it as a rule.
fn plain_bottom(words: &[u32], g: Settings) -> u32
    requires { head_words ≤ length words.now }
    ensures { result ≡ plain_bottom words.now g }
{
    if g.kind == 0 {
        words[MARK].saturating_sub(g.depth)
    } else {
        0
    }
}

// Whether all subs are so, held to that bottom.
pub fn plain_subs(words: &[u32], g: Settings) -> bool
    requires bounds { Bounds g }
    requires g_in_bounds { needed g ≤ length words.now }
    ensures { result ≡ true → subs_fit_above words.now g (plain_bottom words.now g) ≡ true }
{
    let bottom = plain_bottom(words, g);
    all_in_fours(g.width, |j| plain_sub(words, g, bottom, j))
}
