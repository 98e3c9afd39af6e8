use crate::beside::Beside;
use crate::making::{Maker, on_sheet, whole_read, whole_summary};
use crate::random::Random;
use crate::tally::Tally;
use book::{Book, MOST_VERSIONS, Node, open_book};
use replay::{Call, Inputs, SheetCall, Which, perform};
use rule::Rule;
use rule::brackets::Brackets;
use rule::lines::Lines;
use sheet::Sheet;
use shelf::Shelf;
use std::alloc::{AllocError, Global};

// The lengths of the lists that a book and its sheets are handed, and the number of calls.
#[derive(Clone, Copy)]
pub struct Setup {
    pub slots: usize,
    pub values: usize,
    pub calls: usize,
}

// Two shelves, and the texts of the first.
#[derive_where(Clone, Copy)]
pub struct Shelves<'a, S, T> {
    pub first: &'a S,
    pub second: &'a T,
    pub texts: &'a [Vec<u8>],
    // Whether the second has the same texts.
    pub alike: bool,
}

// A book with its two sheets, what its calls read, and what is kept beside it.
#[derive(Drop)]
struct Trial<'a, S, T> {
    heap: Global,
    book: Book<'a>,
    lines: Sheet<'a, Lines>,
    brackets: Sheet<'a, Brackets>,
    inputs: Inputs<'a, S, T>,
    beside: Beside<'a>,
}

impl<'a, S: Shelf, T: Shelf> Trial<'a, S, T> {
    // Makes a call, and compares its answer.
    fn make(&mut self, call: Call, tally: &mut Tally) -> Result<(), AllocError> {
        let answer = perform(
            self.heap,
            &mut self.book,
            &mut self.lines,
            &mut self.brackets,
            &self.inputs,
            call,
        )?;
        tally.note(call, &answer);
        tally.compared(self.beside.agrees(call, &answer)?);
        Ok(())
    }

    // Makes the closing calls: a read of each version, a bring-up of each sheet, and a summary of each version by each.
    fn close(&mut self, tally: &mut Tally) -> Result<(), AllocError> {
        for k in 0..MOST_VERSIONS {
            let call = whole_read(&self.beside.plain, k);
            self.make(call, tally)?;
        }
        for sheet in [Which::First, Which::Second] {
            self.make(on_sheet(sheet, SheetCall::BringUp), tally)?;
        }
        for k in 0..MOST_VERSIONS {
            for sheet in [Which::First, Which::Second] {
                let call = whole_summary(&self.beside.plain, sheet, k);
                self.make(call, tally)?;
            }
        }
        Ok(())
    }
}

// Makes calls on a new book and two new sheets, and compares each answer.
pub fn run_trial<S: Shelf + Drop, T: Shelf + Drop>(
    heap: Global,
    setup: Setup,
    shelves: &Shelves<S, T>,
    random: &mut Random,
    tally: &mut Tally,
) -> Result<(), AllocError> {
    let Setup {
        slots,
        values,
        calls,
    } = setup;
    let mut nodes = vec![in heap; Node::FREE; slots]?;
    let mut counts = vec![in heap; Lines::empty(); values]?;
    let mut pairs = vec![in heap; Brackets::empty(); values]?;
    let beside = Beside::new(heap, shelves.texts, shelves.alike, slots, values)?;
    let mut trial = Trial {
        heap,
        book: open_book(nodes.as_mut_slice(), shelves.first),
        lines: Sheet::new(counts.as_mut_slice()),
        brackets: Sheet::new(pairs.as_mut_slice()),
        inputs: Inputs {
            first: shelves.first,
            second: shelves.second,
            patterns: beside.plain.patterns(),
        },
        beside,
    };
    for _ in 0..calls {
        let mut maker = Maker {
            random: &mut *random,
            plain: &trial.beside.plain,
        };
        let call = maker.some_call();
        trial.make(call, tally)?;
    }
    trial.close(tally)
}
