ghost use Rattle.std.specs.Prelude.{◌≡◌, map, length, IfOk};
ghost use Rattle.shelf.specs.Texts.{stretch};
ghost use Rattle.model.specs.Book.{book_step};
ghost use Rattle.model.specs.Calls as calls;
ghost use Rattle.book.specs.Whole.{view};
ghost use Rattle.replay.specs.Calls.{question_call, book_answer};

use crate::call::{BookTold, Question};
use ask::{find, read, shape};
use book::{Book, BookFault};
use shelf::Shelf;
use std::alloc::{AllocError, Global};

// Reads `len` bytes of a version. Memory is asked for only where the version has that many.
fn read_bytes<S: Shelf>(
    heap: Global,
    book: &Book,
    shelf: &S,
    version: usize,
    from: usize,
    len: usize,
) -> Result<Result<BookTold, BookFault>, AllocError>
    ensures { IfOk result (λ a. book_step (S.texts shelf.now) (view book.now)
        (calls.read version from len (map length (S.texts shelf.now))) ≡ (book_answer a, view book.now)) }
{
    // A match, since `?` here passes on want of memory alone: a fault is an answer.
    match shape(book, version) {
        Err(fault) => return Ok(Err(fault)),
        Ok(dimensions) if len > dimensions.len => return Ok(Err(BookFault::PastEnd)),
        Ok(_) => {}
    }
    let mut bytes = vec![in heap; 0u8; len]?;
    let res = read(book, shelf, version, from, bytes.as_mut_slice());
    Ok(res.and(Ok(BookTold::Bytes(bytes))))
}

// The stretch of `count` bytes from `start` on, as far as the bytes go.
fn part(bytes: &[u8], start: usize, count: usize) -> &[u8]
    ensures { result.now ≡ stretch start count bytes.now }
{
    let rest = bytes.get(start..).unwrap_or(b"");
    rest.get(..count).unwrap_or(rest)
}

// Asks the book a question.
pub fn ask<S: Shelf>(
    heap: Global,
    book: &Book,
    shelf: &S,
    patterns: &[u8],
    question: Question,
) -> Result<Result<BookTold, BookFault>, AllocError>
    ensures { IfOk result (λ a. book_step (S.texts shelf.now) (view book.now)
        (question_call patterns.now (map length (S.texts shelf.now)) question) ≡ (book_answer a, view book.now)) }
{
    match question {
        Question::Read { version, from, len } => read_bytes(heap, book, shelf, version, from, len),
        Question::Find {
            version,
            from,
            start,
            count,
        } => Ok(find(book, shelf, version, from, part(patterns, start, count)).map(
            BookTold::Found,
        )),
        Question::Shape { version } => Ok(shape(book, version).map(BookTold::Shaped)),
    }
}
