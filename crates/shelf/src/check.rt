ghost use Rattle.std.specs.Prelude.{◌≡◌, [], ◌∷◌};
ghost use Rattle.shelf.specs.Frames.{checked, outcome, held_content, trace_kind, trace_texts, HeadOf, RingOf};

use super::frame::{FrameFault, Kind};
use super::held::Held;
use super::ring::Ring;
use super::texts::LIMIT;
use super::trace::Trace;

// A frame as it was received: it can only be checked.
#[derive(Drop)]
pub struct Received<'a> {
    bytes: &'a [u8],
}

// A frame that passed the check: only such a frame yields a text.
#[derive(Drop)]
pub struct Checked<'a> {
    trace: Trace<'a>,
}

impl<'a> Received<'a> {
    pub fn new(bytes: &'a [u8]) -> Received<'a>
        ensures { result.bytes.now ≡ bytes.now }
    {
        Received { bytes }
    }

    // The checked frame, or the first row that fits.
    pub fn check(self) -> Result<Checked<'a>, FrameFault>
        ensures { outcome result ≡ checked self.entry.bytes.now }
    {
        let Head { length, kind, body } = split_head(self.bytes)?;
        let kind = Kind::try_from(kind)?;
        if length > LIMIT || length != body.len() {
            return Err(FrameFault::WrongLength);
        }
        let trace = match kind {
            Kind::Straight => Trace::Straight(Held::new(body)),
            Kind::Ring => Trace::Ring(ring_of(body)?),
        };
        Ok(Checked { trace })
    }
}

// The fields of a frame, as its bytes give them.
#[derive(Drop)]
struct Head<'a> {
    length: usize,
    kind: u16,
    body: &'a [u8],
}

// Takes off the first six bytes; the rest is the body.
fn split_head(bytes: &[u8]) -> Result<Head<'_>, FrameFault>
    ensures { HeadOf bytes.now result }
{
    let [n0, n1, n2, n3, k0, k1, body @ ..] = bytes else {
        return Err(FrameFault::ShortFrame);
    };
    let length = u32::from_le_bytes([*n0, *n1, *n2, *n3]) as usize;
    let kind = u16::from_le_bytes([*k0, *k1]);
    Ok(Head { length, kind, body })
}

// The ring that the body of a ring dump holds.
fn ring_of(body: &[u8]) -> Result<Ring<'_>, FrameFault>
    ensures { RingOf body.now result }
{
    let [s0, s1, s2, s3, memory @ ..] = body else {
        return Err(FrameFault::BadRing);
    };
    let start = u32::from_le_bytes([*s0, *s1, *s2, *s3]) as usize;
    // an empty memory has the one start 0
    if start < memory.len().max(1) {
        Ok(Ring::new(memory, start))
    } else {
        Err(FrameFault::BadRing)
    }
}

impl<'a> Checked<'a> {
    pub fn kind(&self) -> Kind
        ensures { result ≡ (held_content self.now).kind }
    {
        match self.trace {
            Trace::Straight(_) => Kind::Straight,
            Trace::Ring(_) => Kind::Ring,
        }
    }

    // The text of the frame, as a shelf of one text.
    pub fn text(self) -> Trace<'a>
        ensures kind { trace_kind result ≡ (held_content self.entry).kind }
        ensures texts { trace_texts result ≡ (held_content self.entry).text ∷ [] }
    {
        let Checked { trace } = self;
        trace
    }
}
