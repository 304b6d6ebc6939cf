// One word of a run file on the pool.
ghost use Rattle.std.specs.Prelude.{◌≡◌, ℕ, replicate};
ghost use Rattle.rules.specs.Answers.{Answered, out};
ghost use Rattle.rules.specs.Layout.{most_words};
ghost use Rattle.rules.specs.Make.{shipped};
ghost use Rattle.replay.specs.Replay.{asked_of, out_of, place_after, replayed, item_next, word_next, next_of};
ghost use Rattle.replay.specs.Told.{next_told};
ghost use Rattle.runfile.specs.Items.{item_of};
ghost use Rattle.runfile.specs.Words.{read_at};

use crate::event::{Done, Told};
use image::MOST_WORDS;
use rules::{Answer, Refusal, Settings};
use runfile::item::{Item, Place, Said, decode, fault};
use runfile::reader::Reader;
use runfile::word::Read;

// The lent words before a file's first word: enough for the largest pool.
pub fn lent_words() -> [u32; MOST_WORDS]
    ensures { result ≡ replicate (most_words shipped) 0 }
{
    [0; MOST_WORDS]
}

// The place after a word that is neither of the first two, whatever its answer is.
pub fn place_after(said: Said) -> Place
    ensures { (a : Answered) → result ≡ place_after (Item.Says said) a }
{
    if matches!(said, Said::End) {
        Place::Past
    } else {
        Place::Later
    }
}

// The second word: the pool is made. The lent words are enough for the largest pool, so of make's refusals a run file meets 22 alone.
fn make(words: &mut [u32], g: Settings) -> Told
    ensures { (position : ℕ) → replayed (next_told position result) words.new ≡ item_next words.old position (Item.Make g) }
{
    match pool::make(
        words, g.kind, g.width, g.depth, g.shift, g.rows, g.workers, g.stride,
    ) {
        Ok(_) => Told::Makes(g),
        Err(refusal) => Told::Ends(Some(refusal)),
    }
}

// What the call that a later word makes comes to, `Moving` where it makes none.
#[tactic(auto, unfolding(crate::specs::Replay::out_of, rules::specs::Run::call_of))]
fn answer_to(words: &mut [u32], said: Said) -> Result<Answer, Refusal>
    ensures { out result words.new ≡ out_of words.old (asked_of (Item.Says said)) }
{
    match said {
        Said::BeginPut { worker, value } => pool::begin_put(words, u32::from(worker), value),
        Said::BeginTake { worker } => pool::begin_take(words, u32::from(worker)),
        Said::Step { worker } => pool::step(words, u32::from(worker)),
        Said::End => Ok(Answer::Moving),
        Said::SetSize { width, depth } => {
            pool::set_size(words, u32::from(width), u32::from(depth))
        }
    }
}

// What a word does.
#[tactic(auto, unfolding(crate::specs::Replay::word_next, crate::specs::Replay::item_next, crate::specs::Replay::out_of, laws::specs::Choice::cond))]
fn next_word(words: &mut [u32], place: Place, position: u64, word: u32) -> Told
    ensures { replayed (next_told position result) words.new ≡ word_next words.old position (item_of place word) }
{
    let Some(item) = decode(place, word) else {
        return Told::Ends(Some(Refusal::BadWord));
    };
    match item {
        Item::Open(opening) => Told::Opens(opening),
        Item::Make(g) => make(words, g),
        Item::Says(said) => {
            let answer = answer_to(words, said);
            Told::Does(Done {
                position,
                said,
                answer,
            })
        }
    }
}

// What a reader has for the replay, at a place and a position of the file: either the reader yields a word, or the file ends, by a fault (after the
// end word by none). Where there is no word the reader is asked again: its answer, kept for that, would burden every word.
#[tactic(auto, unfolding(crate::specs::Replay::next_of))]
pub fn next(words: &mut [u32], place: Place, position: u64, reader: Reader<'_>) -> Told
    ensures { replayed (next_told position result) words.new ≡ next_of words.old place position (read_at reader.entry.src.now reader.entry.at) }
{
    let read = reader.read();
    let Read::Word(word) = read else {
        return Told::Ends(fault(place, reader.read()));
    };
    next_word(words, place, position, word)
}
