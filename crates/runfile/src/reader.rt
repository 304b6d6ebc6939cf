// A reader that carries the lent bytes and its word position.
ghost use Rattle.std.specs.Prelude.{◌≡◌};
ghost use Rattle.runfile.specs.Words.{read_at};

use crate::word::{Read, word_at};

#[derive(Clone, Copy)]
pub struct Reader<'a> {
    pub src: &'a [u8],
    pub at: usize,
}

impl<'a> Reader<'a> {
    // What stands at the reader's position.
    pub fn read(&self) -> Read
        ensures { result ≡ read_at self.now.src.now self.now.at }
    {
        word_at(self.src, self.at)
    }
}
