use ask::Dimensions;
use book::{BookFault, Kept};
use sheet::SheetFault;

// One of two: the two shelves that calls are handed, and the two sheets that they ask.
#[derive(Clone, Copy, PartialEq, Eq, Debug)]
pub enum Which {
    First,
    Second,
}

// A call that may change the book. It is handed no shelf. The edits stand beside open, keep and toss, as one list holds them all.
#[derive(Clone, Copy)]
pub enum Change {
    Open {
        version: usize,
    },
    PutPiece {
        place: usize,
        text: usize,
        from: usize,
        len: usize,
    },
    PutVersion {
        place: usize,
        version: usize,
    },
    Cut {
        from: usize,
        len: usize,
    },
    Crop {
        from: usize,
        len: usize,
    },
    Keep,
    Toss,
}

// A question to the book. The pattern of a find is `count` bytes from `start` on of the bytes that are handed with the calls,
// as far as they go.
#[derive(Clone, Copy)]
pub enum Question {
    Read {
        version: usize,
        from: usize,
        len: usize,
    },
    Find {
        version: usize,
        from: usize,
        start: usize,
        count: usize,
    },
    Shape {
        version: usize,
    },
}

// A call on a sheet.
#[derive(Clone, Copy)]
pub enum SheetCall {
    BringUp,
    Summary {
        version: usize,
        from: usize,
        len: usize,
    },
}

// A call on the book or on one of its two sheets, with the shelf that it is handed.
#[derive(Clone, Copy)]
pub enum Call {
    Book(Change),
    Ask {
        shelf: Which,
        question: Question,
    },
    Sheet {
        sheet: Which,
        shelf: Which,
        call: SheetCall,
    },
}

// What the book tells where it accepts a call.
#[derive(Drop)]
pub enum BookTold {
    Opened,
    Edited(usize),
    Kept(Kept),
    Tossed,
    Bytes(Vec<u8>),
    Found(Option<usize>),
    Shaped(Dimensions),
}

// What a sheet that has values of type V tells where it accepts a call.
#[derive(Clone, Copy)]
pub enum SheetTold<V: Copy> {
    Added(usize),
    Value(V),
}

// What a call answers: the book, or one of its two sheets.
#[derive(Drop)]
pub enum Answer<P: Copy, Q: Copy> {
    Book(Result<BookTold, BookFault>),
    First(Result<SheetTold<P>, SheetFault>),
    Second(Result<SheetTold<Q>, SheetFault>),
}
