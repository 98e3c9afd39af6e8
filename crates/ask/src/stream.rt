ghost use Rattle.std.specs.Prelude.{◌≡◌, ◌<◌, ◌≤◌, length, drop, Ok};
ghost use Rattle.model.specs.Plain.{first_place};
ghost use Rattle.model.specs.Rows.{longest_pattern};
ghost use Rattle.book.specs.Reader.{bytes_at};

use super::fill::fill;
use book::Reader;
use memchr::arch::all::packedpair::{DefaultFrequencyRank, HeuristicFrequencyRank};
use memchr::memmem::{Finder, FinderBuilder};
use shelf::{CopyFault, Shelf};

// How many bytes are searched at a time.
const WINDOW: usize = 4096;

// How common bytes are taken to be: a pattern's first byte counts as the rarest.
#[derive(Clone, Copy)]
struct FirstRarest(u8);

impl HeuristicFrequencyRank for FirstRarest {
    fn rank(&self, byte: u8) -> u8 {
        if byte == self.0 {
            0
        } else {
            DefaultFrequencyRank.rank(byte).max(1)
        }
    }
}

// A search for a pattern. Its scan goes by the pattern's first byte and another one, so that a long text without the first byte
// is passed over, whatever it is made of.
fn finder_of(pattern: &[u8]) -> Finder<'_>
    requires { 0 < length pattern.now }
    ensures { result ≡ pattern.now }
{
    FinderBuilder::new().build_forward_with_ranker(FirstRarest(pattern[0]), pattern)
}

// The first place at or after `from` where the pattern stands in the bytes of the tree at a slot.
// The bytes are read through a window. Two neighbouring windows share one byte less than the pattern has, so that it stands whole in one of them.
pub(crate) fn stream<S: Shelf>(
    reader: &Reader<S>,
    slot: u16,
    from: usize,
    pattern: &[u8],
) -> Result<Option<usize>, CopyFault>
    requires used { slot < length reader.now.nodes.now }
    requires some { 0 < length pattern.now }
    requires short { length pattern.now ≤ longest_pattern }
    ensures { result ≡ Ok (first_place pattern.now from (drop from (bytes_at (S.texts reader.now.shelf.now) reader.now.nodes.now slot))) }
{
    let end = reader.nodes[slot as usize].len as usize;
    // The pattern has room at the places before `stop` alone. Where there are none, no searcher is made.
    let stop = (end + 1).saturating_sub(pattern.len());
    if from >= stop {
        return Ok(None);
    }
    let finder = finder_of(pattern);
    let mut window = [0; WINDOW];
    for at in (from..stop).step_by(WINDOW + 1 - pattern.len()) {
        let n = WINDOW.min(end - at);
        fill(reader, slot, at, &mut window[0..n])?;
        if let Some(place) = finder.find(&window[0..n]) {
            return Ok(Some(at + place));
        }
    }
    Ok(None)
}
