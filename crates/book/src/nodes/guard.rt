ghost use Rattle.std.specs.Prelude.{◌≡◌};
ghost use Rattle.std.specs.Option.{unwrap_or};
ghost use Rattle.book.specs.Records.{store};
ghost use Rattle.book.specs.Changing.{Allowed, changed, Changes};

use super::changes::build;
use crate::node::{Built, Change, NoRoom, Node, Places};

// Holds the places in use while a change is made, and gives back every slot taken unless the change is done.
struct Guard<'a> {
    places: &'a mut Places,
    // The number of places in use to go back to, none once the change is done.
    start: Option<usize>,
}

impl Drop for Guard<'_> {
    fn drop(self)
        ensures { self.exit.0.now.used ≡ unwrap_or self.entry.start self.entry.places.now.used }
    {
        if let Some(start) = self.start {
            self.places.used = start;
        }
        let Guard {
            places: _,
            start: _,
        } = self;
    }
}

// Makes a change. Where there is no room for it, the places in use are as they were.
pub(crate) fn change(
    nodes: &mut [Node],
    places: &mut Places,
    root: Option<u16>,
    change: Change,
) -> Result<Built<Option<u16>>, NoRoom>
    requires { Allowed (store nodes.old places.old) root change }
    ensures { Changes (store nodes.old places.old) (store nodes.new places.new)
        (changed (store nodes.old places.old) root change) result }
{
    let start = Some(places.used);
    let mut guard = Guard { places, start };
    let edited = build(nodes, guard.places, root, change)?;
    guard.start = None;
    Ok(edited)
}
