// What an effect writes and answers: a commit's, and those of the phases that are read as a whole.
ghost use Rattle.std.specs.Prelude.{Ok, ◌≡◌, ◌<◌};
ghost use Rattle.rules.specs.Answers.{out};
ghost use Rattle.rules.specs.Fit.{FitPool};
ghost use Rattle.rules.specs.Layout.{Lent};
ghost use Rattle.rules.specs.Apply.{taken_of, apply_of};
ghost use Rattle.step.specs.Allowed.{Allowed, Commits};

use held::distance;
use image::{item_of, put_landed, put_shifted, put_sub};
use queue_windows::{put_dropped, put_raised};
use rules::{Answer, Effect, Outcome, Refusal, Row, Settings};
use slots::{count_lost, put_worker};

// The answer of a take: the row's item, and the distance just before.
fn taken(words: &[u32], g: Settings, j: u32, row: Row) -> Answer
    requires fit_pool { FitPool g words.now }
    requires j_lt_width { j < g.width }
    ensures { Ok result ≡ taken_of words.now g j row }
{
    let it = item_of(words, g, j, row);
    let stamp = it.stamp;
    Answer::Taken {
        value: it.value,
        sub: j,
        row,
        stamp,
        distance: distance(words, g, stamp),
    }
}

// Writes a commit's effect of the worker whose words start at `at` and whose sub is `j`.
pub fn apply_commit(
    words: &mut [u32],
    g: Settings,
    at: usize,
    j: u32,
    e: Effect,
) -> Result<Answer, Refusal>
    requires fit_pool { FitPool g words.old }
    requires lent { Lent g words.old at }
    requires j_lt_width { (j < g.width) × Commits e.outcome }
    ensures { out result words.new ≡ apply_of words.old g at j e }
{
    match e.outcome {
        Outcome::Refused(refusal) => Err(refusal),
        Outcome::Lost => {
            count_lost(words, g, at);
            put_worker(words, g, at, e);
            Ok(Answer::Moving)
        }
        Outcome::Landed { value, row, stamp } => {
            put_landed(words, g, j, value, row, stamp, e);
            put_worker(words, g, at, e);
            Ok(Answer::Put {
                value,
                sub: j,
                row,
                stamp,
            })
        }
        Outcome::Removed { row } => {
            let answer = taken(words, g, j, row);
            put_sub(words, j, e);
            put_worker(words, g, at, e);
            Ok(answer)
        }
        // No commit ends in another way.
        _ => unreachable!(),
    }
}

// Writes a late phase's effect of the worker whose words start at `at` and whose sub is `j`.
pub fn apply(
    words: &mut [u32],
    g: Settings,
    at: usize,
    j: u32,
    e: Effect,
) -> Result<Answer, Refusal>
    requires fit_pool { FitPool g words.old }
    requires lent { Lent g words.old at }
    requires allowed { Allowed words.old g e.outcome }
    ensures { out result words.new ≡ apply_of words.old g at j e }
{
    match e.outcome {
        Outcome::Refused(refusal) => Err(refusal),
        Outcome::Moving => {
            put_worker(words, g, at, e);
            Ok(Answer::Moving)
        }
        Outcome::Shifted => {
            put_shifted(words, e);
            put_worker(words, g, at, e);
            Ok(Answer::Moving)
        }
        Outcome::Raised => {
            put_raised(words, g, e);
            put_worker(words, g, at, e);
            Ok(Answer::Moving)
        }
        Outcome::Dropped => {
            put_dropped(words, g, e);
            put_worker(words, g, at, e);
            Ok(Answer::Moving)
        }
        Outcome::Empty => {
            put_worker(words, g, at, e);
            Ok(Answer::Empty)
        }
        Outcome::Full => {
            put_worker(words, g, at, e);
            Ok(Answer::Full)
        }
        // Only a commit ends in another way.
        _ => unreachable!(),
    }
}
