use crate::cover::Cover;
use crate::expected::{Source, line_ends, unmatched};
use crate::plain::Plain;
use crate::slots::Slots;
use book::{BookFault, MOST_SLOTS};
use replay::{Answer, BookTold, Call, Change, Which};
use rule::brackets::Unmatched;
use std::alloc::{AllocError, Global};

// What is kept beside a real book and its sheets: the plain book, how many slots are in use, and what each sheet covers.
#[derive(Drop)]
pub struct Beside<'a> {
    pub plain: Plain<'a>,
    // Whether the second shelf has the book's texts.
    alike: bool,
    slots: Slots,
    first: Cover,
    second: Cover,
}

impl<'a> Beside<'a> {
    // The book is handed `slots` records, and each sheet `values` values.
    pub fn new(
        heap: Global,
        texts: &'a [Vec<u8>],
        alike: bool,
        slots: usize,
        values: usize,
    ) -> Result<Beside<'a>, AllocError> {
        Ok(Beside {
            plain: Plain::new(heap, texts)?,
            alike,
            slots: Slots::new(heap, slots.min(MOST_SLOTS))?,
            first: Cover::new(values),
            second: Cover::new(values),
        })
    }

    // Whether a change was answered as the plain book says. Where it was accepted it is made there too.
    fn change_agrees(
        &mut self,
        change: Change,
        answer: &Result<BookTold, BookFault>,
    ) -> Result<bool, AllocError> {
        match answer {
            Ok(told) => Ok(self.plain.make(change)? && self.slots.count(change, told)?),
            Err(given) => Ok(match self.plain.effect(change) {
                Err(fault) => fault == *given,
                Ok(_) => *given == BookFault::NoRoom && self.slots.few(),
            }),
        }
    }

    // Whether a shelf has the book's texts.
    fn same(&self, shelf: Which) -> bool {
        self.alike || shelf == Which::First
    }

    // Whether a call was answered as expected.
    pub fn agrees(
        &mut self,
        call: Call,
        answer: &Answer<u32, Unmatched>,
    ) -> Result<bool, AllocError> {
        match (call, answer) {
            (Call::Book(change), Answer::Book(given)) => self.change_agrees(change, given),
            (Call::Ask { shelf, question }, Answer::Book(given)) => {
                let same = self.same(shelf);
                let source = Source::new(&self.plain, same);
                Ok(source.agrees(question, given))
            }
            (
                Call::Sheet {
                    sheet: Which::First,
                    shelf,
                    call,
                },
                Answer::First(given),
            ) => {
                let same = self.same(shelf);
                let source = Source::new(&self.plain, same);
                let sheet = &mut self.first;
                Ok(sheet.agrees(source, &self.slots, call, *given, line_ends))
            }
            (
                Call::Sheet {
                    sheet: Which::Second,
                    shelf,
                    call,
                },
                Answer::Second(given),
            ) => {
                let same = self.same(shelf);
                let source = Source::new(&self.plain, same);
                let sheet = &mut self.second;
                Ok(sheet.agrees(source, &self.slots, call, *given, unmatched))
            }
            _ => Ok(false),
        }
    }
}
