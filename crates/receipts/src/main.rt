#![tactic(auto)]

// Edits a book through draft receipts, and prints what the calls answered and the versions that were kept.
use ask::{read, shape};
use book::{Book, BookFault, Draft, Kept, Node, open_book};
use shelf::Held;
use std::fmt;
use std::io::Write;

const TEXT: &[u8] = b"the door is open\nshut";

// Why the edits stopped. A refused edit or keep hands the receipt back, which is still to be ended.
struct Stopped {
    fault: BookFault,
    draft: Option<Draft>,
}

impl From<BookFault> for Stopped {
    fn from(fault: BookFault) -> Stopped {
        Stopped { fault, draft: None }
    }
}

impl From<(Draft, BookFault)> for Stopped {
    fn from((draft, fault): (Draft, BookFault)) -> Stopped {
        Stopped {
            fault,
            draft: Some(draft),
        }
    }
}

// A fault, printed by the number and the layer of its row.
#[derive(Clone, Copy)]
struct Refusal(BookFault);

impl fmt::Display for Refusal {
    fn fmt<W: fmt::Write>(&self, f: &mut fmt::Formatter<W>) -> fmt::Result {
        write!(f, "fault {}", self.0.row())
    }
}

// What the edits answered.
#[derive(Clone, Copy)]
struct Answers {
    opened: Kept,
    cut: usize,
    put: usize,
    shut: Kept,
}

// Keeps the first line of the text, and goes on from there: "open" is cut out and "shut" is put in.
// The cut splits a piece twice, which makes four pieces, and joins the outer two; the put makes a piece and two nodes.
fn write(book: &mut Book) -> Result<Answers, Stopped> {
    let draft = Draft::open(book, 0)?;
    let (draft, _) = draft.put_piece(book, 0, 0, 0, 17)?;
    let opened = draft.keep(book)?;
    let draft = Draft::open(book, opened.version)?;
    let (draft, cut) = draft.cut(book, 12, 4)?;
    let (draft, put) = draft.put_piece(book, 12, 0, 17, 4)?;
    let shut = draft.keep(book)?;
    Ok(Answers {
        opened,
        cut,
        put,
        shut,
    })
}

// Keeps one version followed by another. A piece joined with ((b c) d) makes 4: a node, and 3 by the double turn.
fn append(book: &mut Book, first: usize, second: usize) -> Result<Kept, Stopped> {
    let draft = Draft::open(book, second)?;
    let (draft, _) = draft.put_version(book, 0, first)?;
    Ok(draft.keep(book)?)
}

// Keeps the first bytes of a version, as many as `len` says. Of ((a b)(c d)) the first piece is left, and (b (c d)) is made.
fn shorten(book: &mut Book, version: usize, len: usize) -> Result<Kept, Stopped> {
    let draft = Draft::open(book, version)?;
    let (draft, _) = draft.crop(book, 0, len)?;
    Ok(draft.keep(book)?)
}

// Ends the receipt that was handed back, and tells the fault.
fn give_up(book: &mut Book, stopped: Stopped) -> Refusal {
    let Stopped { fault, draft } = stopped;
    if let Some(draft) = draft {
        let _ = draft.toss(book);
    }
    Refusal(fault)
}

// Prints the number of a kept version, the slots made for it, and its bytes.
// A fault is matched and printed, here and below: with `?` it would end the program.
fn print_kept(rt: &HostRuntime, book: &Book, shelf: &Held, kept: Kept) -> anyhow::Result<()> {
    let Kept { version, made } = kept;
    println!(rt; "kept {version} made {made}")?;
    let len = match shape(book, version) {
        Ok(dimensions) => dimensions.len,
        Err(fault) => return Ok(rt.println(Refusal(fault))?),
    };
    let mut bytes = vec![in rt.alloc(); 0u8; len]?;
    match read(book, shelf, version, 0, bytes.as_mut_slice()) {
        Ok(()) => rt.stdout().write_all(bytes.as_slice())?,
        Err(fault) => rt.println(Refusal(fault))?,
    }
    Ok(())
}

fn print_answers(
    rt: &HostRuntime,
    book: &Book,
    shelf: &Held,
    answers: Answers,
) -> anyhow::Result<()> {
    let Answers {
        opened,
        cut,
        put,
        shut,
    } = answers;
    print_kept(rt, book, shelf, opened)?;
    println!(rt; "cut made {cut}, put made {put}")?;
    print_kept(rt, book, shelf, shut)
}

// Prints a version that was kept, or the fault that the edits stopped at.
fn print_result(
    rt: &HostRuntime,
    book: &mut Book,
    shelf: &Held,
    res: Result<Kept, Stopped>,
) -> anyhow::Result<()> {
    match res {
        Ok(kept) => print_kept(rt, book, shelf, kept),
        Err(stopped) => Ok(rt.println(give_up(book, stopped))?),
    }
}

fn run(rt: &HostRuntime) -> anyhow::Result<()> {
    let shelf = Held::new(TEXT);
    let mut nodes = [Node::FREE; 32];
    let mut book = open_book(&mut nodes, &shelf);
    match write(&mut book) {
        Ok(answers) => print_answers(rt, &book, &shelf, answers)?,
        Err(stopped) => rt.println(give_up(&mut book, stopped))?,
    }
    let both = append(&mut book, 1, 2);
    print_result(rt, &mut book, &shelf, both)?;
    let past_end = shorten(&mut book, 3, 35);
    print_result(rt, &mut book, &shelf, past_end)?;
    let short = shorten(&mut book, 3, 17);
    print_result(rt, &mut book, &shelf, short)
}

fn main(rt: HostRuntime) -> anyhow::Result<()> {
    run(&rt)
}
