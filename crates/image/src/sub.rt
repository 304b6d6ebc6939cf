// The two words of a sub.
ghost use Rattle.std.specs.Prelude.{◌≡◌, ◌+◌, ◌≤◌, length};
ghost use Rattle.rules.specs.Apply.{put_sub};
ghost use Rattle.rules.specs.Layout.{sub_words, sub_at, first_of, second_of};

use crate::pair::put_pair;
use crate::places::sub_at;
use rules::Effect;

// Items put and items taken, or items held and version.
#[derive(Clone, Copy)]
pub struct Sub {
    pub first: u32,
    pub second: u32,
}

// The words of sub `j`.
pub fn sub_of(words: &[u32], j: u32) -> Sub
    requires { sub_at j + sub_words ≤ length words.now }
    ensures { (result.first ≡ first_of words.now j) × (result.second ≡ second_of words.now j) }
{
    let at = sub_at(j);
    Sub {
        first: words[at],
        second: words[at + 1],
    }
}

// Writes the words of sub `j`.
#[tactic(auto, unfolding(rules::specs::Apply::put_sub))]
pub fn put_sub(words: &mut [u32], j: u32, e: Effect)
    requires { sub_at j + sub_words ≤ length words.old }
    ensures { words.new ≡ put_sub words.old j e }
{
    put_pair(words, sub_at(j), e.first, e.second);
}
