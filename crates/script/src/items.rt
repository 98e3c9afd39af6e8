ghost use Rattle.std.specs.Prelude.{◌≡◌, ◌+◌, ◌≤◌, length, nat_le};
ghost use Rattle.script.specs.Buffers.{Wrote, end_of, written};
ghost use Rattle.script.specs.Items.{word_letters, spelled, printed};

use super::buffer::Writer;
use itoa::Buffer;
use shelf::Layer;

// A word that is printed.
#[derive(Clone, Copy, PartialEq, Eq, Debug)]
pub enum Word {
    Kept,
    Made,
    Nowhere,
    Fault,
}

// What stands between two spaces of a printed line. No call allocates, so a line is not a `String` that `format!` makes:
// it is laid into a lent buffer, item by item.
#[derive(Clone, Copy)]
pub enum Item {
    Word(Word),
    Layer(Layer),
    Number(usize),
}

impl Word {
    // The letters that are printed for the word.
    fn letters(self) -> &'static str
        ensures { result.now ≡ word_letters self }
    {
        match self {
            Word::Kept => "kept",
            Word::Made => "made",
            Word::Nowhere => "none",
            Word::Fault => "fault",
        }
    }
}

impl Item {
    // Its text; the digits of a number are written into the buffer.
    fn text<'a>(&self, digits: &'a mut Buffer) -> &'a str
        ensures value { result.now ≡ spelled self.now }
        ensures few { length result.now ≤ 20 }
    {
        match self {
            Item::Word(word) => word.letters(),
            Item::Layer(layer) => layer.word(),
            Item::Number(n) => digits.format(*n),
        }
    }
}

// Whether a line of items has at most `room` bytes. A loop, since the closure of a `sum` cannot show that it has a bound,
// and std has no lemma on `try_fold`.
fn fits(items: &[Item], room: usize) -> bool
    ensures { result ≡ nat_le (length (printed items.now)) room }
{
    let mut left = room;
    for item in items {
        let taken = item.text(&mut Buffer::new()).len() + 1;
        if taken > left {
            return false;
        }
        left -= taken;
    }
    true
}

impl<'a> Writer<'a> {
    // Writes a line of items that has room. With `split_last`, the last item would be written by calls of its own.
    fn put_line(&mut self, items: &[Item])
        requires { self.old.at + length (printed items.now) ≤ length self.old.out.now }
        ensures { Wrote (printed items.now) self.old self.new }
    {
        for (i, item) in items.iter().enumerate() {
            let behind = if i + 1 < items.len() { b' ' } else { b'\n' };
            self.put(item.text(&mut Buffer::new()).as_bytes());
            self.put(&[behind]);
        }
    }
}

// Prints a line of items from the place `at` on, and gives the place behind it; without room for the whole line it
// writes nothing. No items print nothing.
pub fn print(out: &mut [u8], at: usize, items: &[Item]) -> Option<usize>
    ensures end { result ≡ end_of at (printed items.now) out.old }
    ensures buffer { out.new ≡ written at (printed items.now) out.old }
{
    if at > out.len() || !fits(items, out.len() - at) {
        return None;
    }
    let mut writer = Writer { out, at };
    writer.put_line(items);
    Some(writer.at)
}
