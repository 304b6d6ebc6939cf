// What the words of a run file do, in the shape in which it is handed on: small, for it goes from call to call with every word. The settings of the first
// two words are large, so that these have cases of their own; the events that all of it stands for are `next_told`'s.
use rules::{Answer, Refusal, Settings};
use runfile::item::{Opening, Said};

// What a word after the first two did: its position, what it says, and what the call that it makes comes to, `Moving` where it makes none. `R` is what it may be
// refused by, or what stands for that.
#[derive(Clone, Copy)]
pub struct Done<R = Refusal> {
    pub position: u64,
    pub said: Said,
    pub answer: Result<Answer, R>,
}

// How a file goes on: its first word is read, the pool is made, a later word did what it says, or the file ends, by a fault or by none.
#[derive(Clone, Copy)]
pub enum Told {
    Opens(Opening),
    Makes(Settings),
    Does(Done),
    Ends(Option<Refusal>),
}
