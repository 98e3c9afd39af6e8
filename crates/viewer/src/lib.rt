#![tactic(auto)]

// What a fitter is shown of a trace file.
ghost use Rattle.std.specs.Prelude.{◌≡◌, ◌++◌, IfOk, codes, decimal};
ghost use Rattle.std.specs.Option.{option_map};
ghost use Rattle.shelf.specs.Frames.{held_content, kind_words};
ghost use Rattle.shelf.specs.Texts.{text};
ghost use Rattle.viewer.specs.Shown.{shown, shown_content, shown_row};

use shelf::{Checked, Kind, Received, Row, Shelf};
use std::alloc::{AllocError, Global};

// The bytes of text k, or none where k is not a text: it has length 0 then, and its copy is refused.
fn text_bytes<S: Shelf>(heap: Global, shelf: &S, k: usize) -> Result<Vec<u8>, AllocError>
    ensures { IfOk result (λ v. v.items ≡ text (S.texts shelf.now) k) }
{
    let n = shelf.length(k).unwrap_or(0);
    let mut bytes = vec![in heap; 0u8; n]?;
    let _ = shelf.copy(k, 0, bytes.as_mut_slice());
    Ok(bytes)
}

// A refused frame: its row and layer, on a line.
fn view_row(heap: Global, name: &str, row: Row) -> Result<Vec<u8>, AllocError>
    ensures { IfOk result (λ v. v.items ≡ name.now ++ (codes ": " ++ shown_row row)) }
{
    Ok(format!(in heap; "{name}: fault {row}\n")?.into_bytes())
}

// A missing file, on a line.
fn view_missing(heap: Global, name: &str) -> Result<Vec<u8>, AllocError>
    ensures { IfOk result (λ v. v.items ≡ name.now ++ codes ": missing\n") }
{
    Ok(format!(in heap; "{name}: missing\n")?.into_bytes())
}

// The kind and the length of a text, on a line.
fn view_kind(heap: Global, name: &str, kind: Kind, length: usize) -> Result<Vec<u8>, AllocError>
    ensures { IfOk result (λ v. v.items ≡ name.now ++ (codes ": " ++ (kind_words kind ++ (codes ", " ++ (decimal length ++ codes " bytes\n"))))) }
{
    Ok(format!(in heap; "{name}: {kind}, {length} bytes\n")?.into_bytes())
}

// A checked frame: its kind and length on a line, and its text on the next.
fn view_frame(heap: Global, name: &str, frame: Checked<'_>) -> Result<Vec<u8>, AllocError>
    ensures { IfOk result (λ v. v.items ≡ name.now ++ (codes ": " ++ shown_content (held_content frame.entry))) }
{
    let kind = frame.kind();
    let text = text_bytes(heap, &frame.text(), 0)?;
    let mut out = view_kind(heap, name, kind, text.len())?;
    // Room for all that follows, so that no growth copies the text once more.
    out.reserve(text.len().saturating_add(1))?;
    out.extend_from_slice(text.as_slice())?;
    out.push(b'\n')?;
    Ok(out)
}

// What is shown of the file `name`, which has these contents, or is missing.
pub fn view(heap: Global, name: &str, contents: Option<&[u8]>) -> Result<Vec<u8>, AllocError>
    ensures { IfOk result (λ v. v.items ≡ shown name.now (option_map (λ x. x.now) contents.entry)) }
{
    let Some(bytes) = contents else {
        return view_missing(heap, name);
    };
    match Received::new(bytes).check() {
        Ok(frame) => view_frame(heap, name, frame),
        Err(fault) => view_row(heap, name, fault.row()),
    }
}
