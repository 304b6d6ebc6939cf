// Two words one after the other: a sub's, and a cell's.
ghost use Rattle.std.specs.Prelude.{◌≡◌, ◌+◌, ◌<◌, length, set};

// Writes the two words from `at`.
pub fn put_pair(words: &mut [u32], at: usize, first: u32, second: u32)
    requires { at + 1 < length words.old }
    ensures { words.new ≡ set (set words.old at first) (at + 1) second }
{
    words[at] = first;
    words[at + 1] = second;
}
