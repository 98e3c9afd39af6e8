#![tactic(auto)]

// Makes calls from a seed on real books and their sheets, and compares each answer with plain strings kept beside them.
// What counts is the number of differences, which is 0; the other numbers only say what was done.
mod beside;
mod cover;
mod expected;
mod limit;
mod making;
mod plain;
mod random;
mod slots;
mod tally;
mod trial;

use limit::run_limit;
use plain::stretch;
use random::Random;
use shelf::{Held, Pair, Ring};
use std::alloc::{AllocError, Global};
use tally::Tally;
use trial::{Setup, Shelves, run_trial};

// How often each kind of book is tried.
const ROUNDS: usize = 5;

// The kinds of books.
const SETUPS: [Setup; 5] = [
    Setup {
        slots: 65_536,
        values: 65_536,
        calls: 2500,
    },
    Setup {
        slots: 70_000,
        values: 500,
        calls: 1500,
    },
    Setup {
        slots: 300,
        values: 300,
        calls: 600,
    },
    Setup {
        slots: 40,
        values: 10,
        calls: 200,
    },
    Setup {
        slots: 0,
        values: 0,
        calls: 50,
    },
];

// Bytes of few kinds, so that patterns recur.
fn some_bytes(heap: Global, random: &mut Random, len: usize) -> Result<Vec<u8>, AllocError> {
    (0..len).map(|_| random.pick(b"ab()\nab(c)")).collect(heap)
}

// The bytes from `start` on, and then those before it.
fn turned(heap: Global, bytes: &[u8], start: usize) -> Result<Vec<u8>, AllocError> {
    let mut all = Vec::from_slice(heap, stretch(bytes, start, usize::MAX))?;
    all.extend_from_slice(stretch(bytes, 0, start))?;
    Ok(all)
}

// A trial with a second shelf of the same texts, and one with a second shelf of other texts.
fn run_two(
    heap: Global,
    setup: Setup,
    random: &mut Random,
    tally: &mut Tally,
) -> Result<(), AllocError> {
    let trace = some_bytes(heap, random, 400)?;
    let memory = some_bytes(heap, random, 97)?;
    let around = turned(heap, memory.as_slice(), 31)?;
    let first = Pair::new(
        Held::new(trace.as_slice()),
        Pair::new(Ring::new(memory.as_slice(), 31), Held::new(b"")),
    );
    let same = Pair::new(
        Pair::new(Held::new(trace.as_slice()), Held::new(around.as_slice())),
        Ring::new(b"", 3),
    );
    let other = Pair::new(Held::new(trace.as_slice()), Held::new(around.as_slice()));
    let texts = vec![in heap; trace.clone()?, around.clone()?, Vec::new(heap)]?;
    let alike = Shelves {
        first: &first,
        second: &same,
        texts: texts.as_slice(),
        alike: true,
    };
    run_trial(heap, setup, &alike, random, tally)?;
    let unlike = Shelves {
        first: &first,
        second: &other,
        texts: texts.as_slice(),
        alike: false,
    };
    run_trial(heap, setup, &unlike, random, tally)
}

fn run(rt: &HostRuntime) -> anyhow::Result<()> {
    let mut random = Random::new(20_261_118);
    let mut tally = Tally::new(rt.alloc())?;
    for _ in 0..ROUNDS {
        for setup in SETUPS {
            run_two(rt.alloc(), setup, &mut random, &mut tally)?;
        }
    }
    run_limit(rt.alloc(), &mut tally)?;
    tally.print(rt)?;
    Ok(())
}

fn main(rt: HostRuntime) -> anyhow::Result<()> {
    run(&rt)
}
