ghost use Rattle.std.specs.Prelude.{◌≡◌, [], map};
ghost use Rattle.script.specs.Names.{name_of, listed, lookup, meaning, takes, with_name};

use super::copyvec::CopyVec;

// A name of at most eight letters, and the version that it stands for.
#[derive(Clone, Copy)]
struct Entry {
    name: CopyVec<u8, 8>,
    version: usize,
}

// The version that the first entry with the name stands for.
fn find(entries: &[Entry], name: &[u8]) -> Option<usize>
    ensures { result ≡ lookup (map name_of entries.now) name.now }
{
    entries
        .iter()
        .find(|entry| entry.name.as_slice() == name)
        .map(|entry| entry.version)
}

// The names that a script has given to its versions: at most 63, since version 0 is `empty`.
#[derive(Clone, Copy)]
pub struct Names {
    entries: CopyVec<Entry, 63>,
}

impl Names {
    pub fn new() -> Names
        ensures { listed result ≡ [] }
    {
        let unused = Entry {
            name: CopyVec::new(0),
            version: 0,
        };
        Names {
            entries: CopyVec::new(unused),
        }
    }

    // The version that a name stands for: `empty` is version 0.
    pub fn version(&self, name: &[u8]) -> Option<usize>
        ensures { result ≡ meaning (listed self.now) name.now }
    {
        if name == b"empty".as_slice() {
            return Some(0);
        }
        find(self.entries.as_slice(), name)
    }

    // Gives a version a name, and says whether it could: the name has at most 8 bytes, and 63 names are not given yet.
    // A bool, as of `HashSet::insert`: a caller can do the same in both cases.
    pub fn add(&mut self, name: &[u8], version: usize) -> bool
        ensures taken { result ≡ takes (listed self.old) name.now }
        ensures list { listed self.new ≡ with_name (listed self.old) name.now version }
    {
        let mut letters = CopyVec::new(0);
        letters.extend(name)
            && self.entries.extend(&[Entry {
                name: letters,
                version,
            }])
    }
}
