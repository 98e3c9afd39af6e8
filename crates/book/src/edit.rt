// An edit of the draft, as a call gives it. `place` is a place in the draft; `from` and `len` name a stretch
// of a text in `PutPiece`, and of the draft elsewhere.
#[derive(Clone, Copy)]
pub enum Edit {
    PutPiece {
        place: usize,
        text: usize,
        from: usize,
        len: usize,
    },
    PutVersion {
        place: usize,
        version: usize,
    },
    Cut {
        from: usize,
        len: usize,
    },
    Crop {
        from: usize,
        len: usize,
    },
}
