ghost use Rattle.std.specs.Prelude.{◌≡◌};
ghost use Rattle.lineup.specs.Layout.{Removed};

use ranking::places::{Places, put};

// Takes away what lies at a place, by moving up what lies between it and the start.
pub fn remove_at<L: Places>(list: &mut L, start: usize, i: usize)
    ensures { Removed start i (L.Places.contents list.old) (L.Places.contents list.new) }
{
    let mut carried = None;
    // The loop counts, since each place is read and then written.
    for j in start..i {
        let next = list.get(j);
        put(list, j, carried);
        carried = next;
    }
    put(list, i, carried);
}
