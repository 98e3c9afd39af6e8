use book::Book;
use rule::brackets::Brackets;
use rule::lines::Lines;
use script::Names;
use sheet::Sheet;

// What the lines of a script are run on: a book, its sheets of line ends and of brackets, and the names of its versions.
#[derive(Drop)]
pub struct Runner<'a> {
    pub book: Book<'a>,
    pub lines: Sheet<'a, Lines>,
    pub pairs: Sheet<'a, Brackets>,
    pub names: Names,
}
