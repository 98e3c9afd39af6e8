ghost use Rattle.std.specs.Prelude.{◌≡◌, ◌≤◌, length};
ghost use Rattle.script.specs.Answers.{line_most, said, answer_items, fault_items};
ghost use Rattle.script.specs.Buffers.{end_of, written};
ghost use Rattle.script.specs.CopyVec.{items};
ghost use Rattle.script.specs.Items.{printed};

use super::copyvec::CopyVec;
use super::fault::Fault;
use super::items::{Item, Word, print};

// What a line that is not refused answers, but for the bytes that it shows.
#[derive(Clone, Copy)]
pub enum Answer {
    // Of open, text, say, put, cut, crop and toss: nothing is printed.
    Done,
    // Of keep: the version's number, and the node places made since the draft was opened.
    Kept {
        version: usize,
        made: usize,
    },
    // Of find: the place, or none.
    Found {
        place: Option<usize>,
    },
    // Of lines: how many bytes 0x0A there are.
    Lines {
        count: usize,
    },
    // Of pairs: the closings and the openings that have no partner.
    Pairs {
        closings: usize,
        openings: usize,
    },
    // Of shape: the version's length, its height, and how many pieces it has.
    Shape {
        length: usize,
        height: usize,
        pieces: usize,
    },
}

// A printed line of at most five items, as a list in place.
fn list_of(line: &[Item]) -> CopyVec<Item, 5>
    requires { length line.now ≤ 5 }
    ensures { items result ≡ line.now }
{
    let mut list = CopyVec::new(Item::Number(0));
    list.extend(line);
    list
}

impl Answer {
    // The items that are printed of the answer.
    fn items(self) -> CopyVec<Item, 5>
        ensures value { items result ≡ answer_items self }
        ensures short { length (printed (answer_items self)) ≤ line_most }
    {
        match self {
            Answer::Done => list_of(&[]),
            Answer::Kept { version, made } => list_of(&[
                Item::Word(Word::Kept),
                Item::Number(version),
                Item::Word(Word::Made),
                Item::Number(made),
            ]),
            // A match of its own: the proof of a nested pattern does not know that the place has 64 bits.
            Answer::Found { place } => match place {
                Some(place) => list_of(&[Item::Number(place)]),
                None => list_of(&[Item::Word(Word::Nowhere)]),
            },
            Answer::Lines { count } => list_of(&[Item::Number(count)]),
            Answer::Pairs { closings, openings } => list_of(&[
                Item::Number(closings),
                Item::Number(openings),
            ]),
            Answer::Shape {
                length,
                height,
                pieces,
            } => list_of(&[
                Item::Number(length),
                Item::Number(height),
                Item::Number(pieces),
            ]),
        }
    }
}

impl Fault {
    // The items that are printed of the fault.
    fn items(self) -> CopyVec<Item, 5>
        ensures value { items result ≡ fault_items self }
        ensures short { length (printed (fault_items self)) ≤ line_most }
    {
        list_of(&[
            Item::Word(Word::Fault),
            Item::Number(self.row.number as usize),
            Item::Layer(self.row.layer),
            Item::Number(self.line),
            Item::Number(self.column),
        ])
    }
}

// Prints what a line answers, or the fault that refuses it, from the place `at` on, and gives the place behind it; without
// room it writes nothing.
pub fn print_answer(out: &mut [u8], at: usize, answer: Result<Answer, Fault>) -> Option<usize>
    ensures end { result ≡ end_of at (printed (said answer)) out.old }
    ensures buffer { out.new ≡ written at (printed (said answer)) out.old }
    ensures short { length (printed (said answer)) ≤ line_most }
{
    let items = match answer {
        Ok(answer) => answer.items(),
        Err(fault) => fault.items(),
    };
    print(out, at, items.as_slice())
}
