ghost use Rattle.std.specs.Prelude.{◌≡◌, ◌+◌, ◌^◌, ◌<◌};
ghost use Rattle.book.specs.Sides.{tree_side, ordered};
ghost use Rattle.book.specs.Built.{in_turn};

// The greatest number of slots: a slot is numbered in 16 bits.
pub const MOST_SLOTS: usize = 65_536;

// What a record holds: a piece, or the slots of the two sides of a node.
#[derive(Clone, Copy, PartialEq, Eq, Debug)]
pub enum Shape {
    // The piece's text, and the place in it where the piece starts.
    Piece { text: u8, start: u32 },
    Fork { left: u16, right: u16 },
}

// The record of a tree: its bytes, its height, its pieces, and what it is made of.
#[derive(Clone, Copy, PartialEq, Eq, Debug)]
pub struct Node {
    pub len: u32,
    pub height: u8,
    pub pieces: u32,
    pub shape: Shape,
}

impl Node {
    // A record to fill a new list with. No answer depends on it.
    pub const FREE: Node = Node {
        len: 0,
        height: 0,
        pieces: 0,
        shape: Shape::Piece { text: 0, start: 0 },
    };
}

// The slots in use are the first ones.
#[derive(Clone, Copy)]
pub struct Places {
    pub used: usize,
}

// No slot is free.
#[derive(Clone, Copy)]
pub struct NoRoom;

// What was built: the slot of a tree, a root, which is none where the tree is empty, or two of these; and how many slots were taken.
#[derive(Clone, Copy)]
pub struct Built<T> {
    pub value: T,
    pub made: usize,
}

impl<T: Copy> Built<T> {
    // What was there: no slot was taken.
    pub(crate) fn there(value: T) -> Built<T>
        ensures { result ≡ record { value = value; made = 0 } }
    {
        Built { value, made: 0 }
    }

    // One building, and another that goes on with its result.
    pub(crate) fn then<U: Copy>(self, next: Built<U>) -> Built<U>
        requires { self.made + next.made < 2 ^ 64 }
        ensures { result ≡ in_turn self next }
    {
        Built {
            value: next.value,
            made: self.made + next.made,
        }
    }

    // Another value, for which the same slots were taken.
    pub(crate) fn with<U: Copy>(self, value: U) -> Built<U>
        ensures { result ≡ record { value = value; made = self.made } }
    {
        Built {
            value,
            made: self.made,
        }
    }
}

// A change of a tree. A tree may be empty: then it has no root.
#[derive(Clone, Copy)]
pub enum Change {
    // A piece of a text is put in at a place.
    Piece {
        place: u32,
        text: u8,
        start: u32,
        len: u32,
    },
    // A tree is put in at a place.
    Tree {
        place: u32,
        root: Option<u16>,
    },
    // `len` bytes are dropped at `from`.
    Cut {
        from: u32,
        len: u32,
    },
    // All others are dropped.
    Crop {
        from: u32,
        len: u32,
    },
}

#[derive(Clone, Copy, PartialEq, Eq)]
pub enum Side {
    Left,
    Right,
}

impl Side {
    // The two in the order of left and right, where the first stands on this side. Twice gives them as they were.
    pub fn order(self, x: u16, y: u16) -> (u16, u16)
        ensures { result ≡ ordered (tree_side self) x y }
    {
        match self {
            Side::Left => (x, y),
            Side::Right => (y, x),
        }
    }
}
