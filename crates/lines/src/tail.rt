// A text that grows from the end of a lent area to its front, as the digits of a number do: the last of them is known first.
ghost use Rattle.std.specs.Prelude.{◌≡◌, ◌∷◌, [], ◌<◌, ◌≤◌, length};
ghost use Rattle.lines.specs.Area.{written, put};
ghost use Rattle.lines.specs.Lines.{decimal, line_of};
ghost use Rattle.lines.specs.Templates.{filled, marks};

use std::marker::Model;

// Stands for a number in a template.
const MARK: u8 = b'#';

// A clause sees the text, and the bytes of the area before it.
#[derive(Drop)]
pub struct Tail<'a> {
    area: &'a mut [u8],
    at: usize,
}

impl<'a> Model for Tail<'a> {
    ghost use Rattle.std.specs.Prelude.{◌≤◌, length, take, drop};
    ghost use Rattle.lines.specs.Area.{Written, written};

    ghost Value = { Written };

    ghost view = { λ t. written (take t.at t.area.now) (drop t.at t.area.now) };

    ghost invariant = { λ t. t.at ≤ length t.area.now };
}

impl<'a> Tail<'a> {
    // An area with no text yet.
    pub fn new(area: &'a mut [u8]) -> Tail<'a>
        ensures { result ≡ written area.old [] }
    {
        let at = area.len();
        Tail { area, at }
    }

    // How many bytes of the area are before the text.
    pub fn room(&self) -> usize
        ensures { result ≡ length self.now.room }
    {
        self.at
    }

    // Puts a byte before the text.
    pub fn put_byte(&mut self, b: u8)
        requires { 0 < length self.old.room }
        ensures { self.new ≡ put self.old (b ∷ []) }
    {
        self.at -= 1;
        self.area[self.at] = b;
    }

    // Puts a text before it.
    pub fn put_text(&mut self, text: &[u8])
        requires { length text.now ≤ length self.old.room }
        ensures { self.new ≡ put self.old text.now }
    {
        let end = self.at;
        self.at -= text.len();
        self.area[self.at..end].copy_from_slice(text);
    }

    // Puts the decimal digits of `x` before it.
    // Stays: the kit's `itoa` puts two digits at a time, and prints a line of mostly short numbers more slowly (12 % of the lister's time on a stack's file).
    pub fn put_number(&mut self, x: u64)
        requires { length (decimal x) ≤ length self.old.room }
        ensures { self.new ≡ put self.old (decimal x) }
    {
        let mut rest = x;
        while 10 <= rest {
            self.put_byte(b'0' + (rest % 10) as u8);
            rest /= 10;
        }
        self.put_byte(b'0' + rest as u8);
    }

    // Puts a line of numbers: a space between two, and a newline after the last.
    pub fn put_line(&mut self, numbers: &[u64])
        requires { length (line_of numbers.now) ≤ length self.old.room }
        ensures { self.new ≡ put self.old (line_of numbers.now) }
    {
        let mut after = b'\n';
        for x in numbers.iter().rev() {
            self.put_byte(after);
            self.put_number(*x);
            after = b' ';
        }
    }

    // Puts a template, with a number in the place of each mark.
    pub fn put_filled(&mut self, template: &[u8], numbers: &[u64])
        requires a_number_each { marks template.now ≡ length numbers.now }
        requires room { length (filled template.now numbers.now) ≤ length self.old.room }
        ensures { self.new ≡ put self.old (filled template.now numbers.now) }
    {
        let mut left = numbers;
        for b in template.iter().rev() {
            if *b != MARK {
                self.put_byte(*b);
            } else if let [front @ .., x] = left {
                self.put_number(*x);
                left = front;
            }
        }
    }

    // What was put, as bytes of the area. It lends the area on, and so says nothing of the bytes before.
    pub fn text(self) -> &'a [u8]
        ensures { result.now ≡ self.entry.text }
    {
        let Tail { area, at } = self;
        let area: &'a [u8] = area;
        &area[at..]
    }
}
