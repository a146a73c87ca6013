ghost use Rattle.std.specs.Prelude.{◌≡◌, reverse};
ghost use Rattle.lineup.specs.Layout.{from_end};

use ranking::places::Places;

// A list that counts its places from its end.
#[derive(Drop)]
pub struct Mirrored<L> {
    pub list: L,
}

// Where in a list of a length the place lies that is counted from its end.
fn from_end(len: usize, i: usize) -> usize
    ensures { result ≡ from_end len i }
{
    if i < len { len - 1 - i } else { i }
}

impl<L: Places> Places for Mirrored<L> {
    type Record = L::Record;

    ghost contents = { λ s. reverse (L.Places.contents s.list) };

    fn len(&self) -> usize {
        self.list.len()
    }

    fn get(&self, i: usize) -> Option<L::Record> {
        self.list.get(from_end(self.list.len(), i))
    }

    fn hold(&mut self, i: usize, x: L::Record) {
        let place = from_end(self.list.len(), i);
        self.list.hold(place, x);
    }

    fn vacate(&mut self, i: usize) {
        let place = from_end(self.list.len(), i);
        self.list.vacate(place);
    }
}
