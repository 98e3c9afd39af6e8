// What the shelves of one text share: the tests of the text's number and of a stretch. Their calls that differ in nothing are one
// line each; a trait between would take more.
ghost use Rattle.std.specs.Prelude.{◌≡◌, ℕ, ◌+◌, ◌≤◌, List, [], ◌∷◌, length, OnOk};
ghost use Rattle.shelf.specs.Answers.{text_length, copy_answer};

use super::texts::CopyFault;

// The length of text k where the one text has `len` bytes.
pub fn length_of_one(k: usize, len: usize) -> Option<usize>
    ensures { (t : List ℕ) → length t ≡ len → result ≡ text_length (t ∷ []) k }
{
    if k == 0 { Some(len) } else { None }
}

// Refuses a copy of `count` bytes from place `from` of text k where the one text has `len` bytes.
pub fn check_copy_of_one(k: usize, from: usize, count: usize, len: usize) -> Result<(), CopyFault>
    ensures answers { (t : List ℕ) → length t ≡ len → result ≡ copy_answer (t ∷ []) k from count }
    ensures within { OnOk result (from + count ≤ len) }
{
    if k > 0 {
        Err(CopyFault::NoText)
    } else if from > len || count > len - from {
        Err(CopyFault::PastEnd)
    } else {
        Ok(())
    }
}
