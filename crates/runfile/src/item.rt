// What a word of a run file says at its place.
// Its proofs unfold what the specs say of a word.
#![tactic(auto, unfolding(crate::specs::Items::first_of, crate::specs::Items::second_of, crate::specs::Items::size_of, crate::specs::Items::later_of, crate::specs::Items::item_of, laws::specs::Choice::cond))]

ghost use Rattle.std.specs.Prelude.{◌≡◌, ◌<◌};
ghost use Rattle.runfile.specs.Items.{kind_of, bits, first_of, second_of, size_of, later_of, item_of};
ghost use Rattle.runfile.specs.Faults.{fault_of};

use crate::word::Read;
use rules::numbers::SHIPPED;
use rules::{Refusal, Settings};

// The kinds of words, in the top four bits.
// Stays: these numbers are the file's format; what a word of a kind says is a case of `Item` or `Said`, and an enum of the kinds would list these twice.
const OPEN: u32 = 1;

const MAKE: u32 = 2;

const BEGIN_PUT: u32 = 3;

const BEGIN_TAKE: u32 = 4;

const STEP: u32 = 5;

const END: u32 = 6;

const SET_SIZE: u32 = 8;

// The bits where the fields of a word begin; a field ends where the next begins.
const KIND_BIT: u32 = 28;

// Of the first word, after the width from bit 0.
const DEPTH_BIT: u32 = 5;

const SHIFT_BIT: u32 = 12;

const STACK_BIT: u32 = 19;

const STRIDE_BIT: u32 = 20;

const FIRST_SPARE_BIT: u32 = 24;

// Of the second word, after the rows.
const WORKERS_BIT: u32 = 11;

const SECOND_SPARE_BIT: u32 = 17;

// Of a later word, after the value.
const WORKER_BIT: u32 = 22;

// Of a size word, after the width and the depth, which begin where the first word's do.
const SIZE_SPARE_BIT: u32 = 12;

// The settings that the first word holds; kind 1 is a stack (paper 01's pile).
// Stays: the kind is a number, as in the settings that make takes.
#[derive(Clone, Copy)]
pub struct Opening {
    pub kind: u32,
    pub width: u32,
    pub depth: u32,
    pub shift: u32,
    pub stride: u32,
}

// Where a word stands, with what was read before it that its meaning needs.
#[derive(Clone, Copy)]
pub enum Place {
    First,
    Second(Opening),
    Later,
    // After the end word.
    Past,
}

// What a word after the first two says.
#[derive(Clone, Copy)]
pub enum Said {
    BeginPut { worker: u8, value: u32 },
    BeginTake { worker: u8 },
    Step { worker: u8 },
    End,
    SetSize { width: u8, depth: u8 },
}

// What a word says.
#[derive(Clone, Copy)]
pub enum Item {
    Open(Opening),
    Make(Settings),
    Says(Said),
}

// A word's kind.
fn kind_of(word: u32) -> u32
    ensures { result ≡ kind_of word }
{
    word >> KIND_BIT
}

// The number in the bits of a word from `low` to before `high`.
fn bits(word: u32, low: u32, high: u32) -> u32
    requires low_in_word { low < 32 }
    requires high_in_word { high < 32 }
    ensures { result ≡ bits low high word }
{
    word % (1 << high) >> low
}

// The first word.
fn first(word: u32) -> Option<Opening>
    ensures { result ≡ first_of word }
{
    if kind_of(word) != OPEN || bits(word, FIRST_SPARE_BIT, KIND_BIT) != 0 {
        return None;
    }
    Some(Opening {
        kind: bits(word, STACK_BIT, STRIDE_BIT),
        width: bits(word, 0, DEPTH_BIT),
        depth: bits(word, DEPTH_BIT, SHIFT_BIT),
        shift: bits(word, SHIFT_BIT, STACK_BIT),
        stride: bits(word, STRIDE_BIT, FIRST_SPARE_BIT),
    })
}

// The second word.
fn second(opening: Opening, word: u32) -> Option<Settings>
    ensures { result ≡ second_of opening word }
{
    if kind_of(word) != MAKE || bits(word, SECOND_SPARE_BIT, KIND_BIT) != 0 {
        return None;
    }
    let Opening {
        kind,
        width,
        depth,
        shift,
        stride,
    } = opening;
    Some(Settings {
        kind,
        width,
        depth,
        shift,
        rows: bits(word, 0, WORKERS_BIT),
        workers: bits(word, WORKERS_BIT, SECOND_SPARE_BIT),
        stride,
        edition: SHIPPED,
    })
}

// A word that sets the size of the put windows to come.
fn size_of(word: u32) -> Option<Said>
    ensures { result ≡ size_of word }
{
    if bits(word, SIZE_SPARE_BIT, KIND_BIT) != 0 {
        return None;
    }
    Some(Said::SetSize {
        width: bits(word, 0, DEPTH_BIT) as u8,
        depth: bits(word, DEPTH_BIT, SIZE_SPARE_BIT) as u8,
    })
}

// A later word. Only a begin put has a value, and the end word no worker either.
fn later(word: u32) -> Option<Said>
    ensures { result ≡ later_of word }
{
    let worker = bits(word, WORKER_BIT, KIND_BIT) as u8;
    let value = bits(word, 0, WORKER_BIT);
    match kind_of(word) {
        BEGIN_PUT => Some(Said::BeginPut { worker, value }),
        BEGIN_TAKE if value == 0 => Some(Said::BeginTake { worker }),
        STEP if value == 0 => Some(Said::Step { worker }),
        END if bits(word, 0, KIND_BIT) == 0 => Some(Said::End),
        SET_SIZE => size_of(word),
        _ => None,
    }
}

// What `word` says at `place`: none where it is a bad word, of a kind out of place, with a nonzero spare bit, or after the end.
pub fn decode(place: Place, word: u32) -> Option<Item>
    ensures { result ≡ item_of place word }
{
    match place {
        Place::First => first(word).map(Item::Open),
        Place::Second(opening) => second(opening, word).map(Item::Make),
        Place::Later => later(word).map(Item::Says),
        Place::Past => None,
    }
}

// The fault where the reader yields no word: none where the file ends after its end word.
pub fn fault(place: Place, read: Read) -> Option<Refusal>
    ensures { result ≡ fault_of place read }
{
    match (place, read) {
        (_, Read::Word(_)) | (Place::Past, Read::End) => None,
        (Place::Past, Read::Cut) => Some(Refusal::BadWord),
        (_, Read::Cut | Read::End) => Some(Refusal::FileCut),
    }
}
