use shelf::Shelf;
use std::process::Abort;
use std::test::Fail;

// Text k of the shelf is `text`, by its length and its bytes.
pub fn shows<S: Shelf>(
    rt: &(impl Abort + AllocGlobal),
    shelf: &S,
    k: usize,
    text: &[u8],
) -> Result<(), Fail> {
    assert_eq!(rt; shelf.length(k), Some(text.len()));
    let mut out = vec![in rt.alloc(); 0u8; text.len()]?;
    shelf.copy(k, 0, out.as_mut_slice())?;
    assert_eq!(rt; out.as_slice(), text);
    Ok(())
}
