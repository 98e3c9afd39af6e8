ghost use Rattle.std.specs.Prelude.{◌≡◌, Some};
ghost use Rattle.shelf.specs.Rows.{layer_word, row_words};

use std::fmt;

// The layer that a refusal's row belongs to, as it is printed.
#[derive(Clone, Copy, PartialEq, Eq, Debug)]
pub enum Layer {
    Shelf,
    Book,
    Sheet,
    Script,
}

impl Layer {
    // The word that is printed for the layer.
    pub fn word(&self) -> &'static str
        ensures { result.now ≡ layer_word self.now }
    {
        match self {
            Layer::Shelf => "shelf",
            Layer::Book => "book",
            Layer::Sheet => "sheet",
            Layer::Script => "script",
        }
    }
}

impl fmt::Display for Layer {
    ghost output = { λ layer. Some (layer_word layer) };

    fn fmt<W: fmt::Write>(&self, f: &mut fmt::Formatter<W>) -> fmt::Result {
        f.write_str(self.word())
    }
}

// A row of the table of refusals: its number, and its layer.
#[derive(Clone, Copy, PartialEq, Eq, Debug)]
pub struct Row {
    pub number: u8,
    pub layer: Layer,
}

// The number and the layer, with a space between them.
impl fmt::Display for Row {
    ghost output = { λ row. Some (row_words row) };

    fn fmt<W: fmt::Write>(&self, f: &mut fmt::Formatter<W>) -> fmt::Result {
        write!(f, "{} {}", self.number, self.layer)
    }
}
