ghost use Rattle.std.specs.Prelude.{◌≡◌, ◌≤◌, map, length};
ghost use Rattle.std.specs.List.{AllByRecursion};
ghost use Rattle.shelf.specs.Texts.{limit, most_texts};
ghost use Rattle.model.specs.Book.{new_book};
ghost use Rattle.book.specs.Opening.{First};
ghost use Rattle.book.specs.Whole.{view};

use super::Book;
use crate::contents::Contents;
use crate::node::{Node, Places};
use arrayvec::ArrayVec;
use shelf::{MOST_TEXTS, Shelf};

// The lengths of the texts on a shelf.
fn note_lengths<S: Shelf>(shelf: &S) -> ArrayVec<usize, MOST_TEXTS>
    ensures { result.items ≡ map length (S.texts shelf.now) }
{
    let mut lens = ArrayVec::new();
    // By number: a shelf is asked for each of its texts, and has no iterator. Below the count there is a text, so no 0 stands for one.
    for k in 0..shelf.count() {
        lens.push(shelf.length(k).unwrap_or(0));
    }
    lens
}

// The contents of a new book: version 0 is empty and kept.
fn first_contents(lens: ArrayVec<usize, MOST_TEXTS>) -> Contents
    requires few { length lens.items ≤ most_texts }
    requires short { AllByRecursion (λ n. n ≤ limit) lens.items }
    ensures { First result lens.items }
{
    let mut roots = ArrayVec::new();
    roots.push(None);
    Contents {
        draft: None,
        roots,
        lens,
    }
}

// A new book on a list of records and a shelf, whose lengths it notes.
pub fn open_book<'a, S: Shelf>(nodes: &'a mut [Node], shelf: &S) -> Book<'a>
    ensures { view result ≡ new_book (S.texts shelf.now) (length nodes.old) }
{
    let lens = note_lengths(shelf);
    Book {
        nodes,
        places: Places { used: 0 },
        contents: first_contents(lens),
    }
}
