use crate::rounds::{Round, Work};
use crate::words::Setting;
use anyhow::anyhow;
use layers::caps::Caps;
use layers::collar::Collar;
use layers::layer::stack;
use orders::order::{Fill, Order};
use orders::request::Request;
use ranked::book::Ranked;
use ranking::places::{Lent, Places};
use ranking::rules::Time;
use request_file::reader::Reader;
use shelf::shelf::Shelf;
use std::alloc::{AllocError, Global};
use std::time::Instant;
use venue::book::Book;
use venue::venue::Venue;

// Requests to be served, first those that are not measured.
#[derive(Drop)]
pub struct Serving {
    setting: Setting,
    places: Vec<Option<Order>>,
    fills: Vec<Fill>,
    before: Vec<Request>,
    measured: Vec<Request>,
}

// The requests of a file; records that are refused are left out.
fn read_requests(heap: Global, file: &[u8]) -> Result<Vec<Request>, AllocError> {
    let mut requests = Vec::new(heap);
    for item in Reader::over(file) {
        let Ok(located) = item else {
            continue;
        };
        if let Ok(request) = Request::try_from(&located.record.row()) {
            requests.push(request)?;
        }
    }
    Ok(requests)
}

impl Serving {
    pub fn new(
        heap: Global,
        setting: Setting,
        places: usize,
        file: &[u8],
    ) -> Result<Serving, AllocError> {
        let mut before = Vec::new(heap);
        let mut measured = read_requests(heap, file)?;
        match (setting, measured.pop()) {
            (Setting::LastAlone, Some(last)) => {
                before = measured;
                measured = vec![in heap; last]?;
            }
            (_, Some(last)) => measured.push(last)?,
            (_, None) => {}
        }
        Ok(Serving {
            setting,
            places: vec![in heap; None; places]?,
            fills: vec![in heap; Fill::BLANK; places]?,
            before,
            measured,
        })
    }
}

// Sends requests to a venue, and says how many it admits.
fn serve_all<V: Venue>(venue: &mut V, requests: &[Request], fills: &mut [Fill]) -> usize {
    let mut admitted = 0usize;
    for request in requests {
        if venue.serve(*request, fills).is_ok() {
            admitted = admitted.saturating_add(1);
        }
    }
    admitted
}

// What is sent in a round: requests that are not measured, and then those that are.
#[derive(Clone, Copy)]
struct Sent<'a> {
    before: &'a [Request],
    measured: &'a [Request],
}

// A round on a fresh venue. The fill list is lent beside what is sent, since it is written.
fn serve_round<V: Venue + Drop>(
    rt: &HostRuntime,
    mut venue: V,
    sent: Sent,
    fills: &mut [Fill],
) -> anyhow::Result<Round> {
    serve_all(&mut venue, sent.before, fills);
    let start = Instant::now(rt)?;
    let admitted = serve_all(&mut venue, sent.measured, fills);
    Ok(Round {
        records: sent.measured.len(),
        admitted,
        spent: start.elapsed(rt)?,
    })
}

// A round on a pile that refuses nothing itself: wide caps, and a wide collar over them.
fn pile_round<V: Venue + Drop>(
    rt: &HostRuntime,
    book: V,
    sent: Sent,
    fills: &mut [Fill],
) -> anyhow::Result<Round> {
    let Ok(capped) = stack(Caps::new([u32::MAX; 64]), book) else {
        return Err(anyhow!("the caps are refused"));
    };
    let Ok(pile) = stack(Collar::new(1, 100000), capped) else {
        return Err(anyhow!("the collar is refused"));
    };
    serve_round(rt, pile, sent, fills)
}

// A fresh book of a kind over a list.
fn opened<L: Places<Record = Order> + Drop, B: Book<L, Time>>(list: L) -> anyhow::Result<B> {
    match B::open(list, Time) {
        Ok(book) => Ok(book),
        Err(_) => Err(anyhow!("no book has so many places")),
    }
}

// A round on a fresh book over a list. A switch, since each arm runs at a type of its own.
fn list_round<L: Places<Record = Order> + Drop>(
    rt: &HostRuntime,
    setting: Setting,
    list: L,
    sent: Sent,
    fills: &mut [Fill],
) -> anyhow::Result<Round> {
    match setting {
        Setting::Shelf => serve_round(rt, opened::<L, Shelf<L, Time>>(list)?, sent, fills),
        Setting::Ranked | Setting::LastAlone => {
            serve_round(rt, opened::<L, Ranked<L, Time>>(list)?, sent, fills)
        }
        Setting::Pile => pile_round(rt, opened::<L, Ranked<L, Time>>(list)?, sent, fills),
    }
}

impl Work for Serving {
    fn round(&mut self, rt: &HostRuntime) -> anyhow::Result<Round> {
        let sent = Sent {
            before: self.before.as_slice(),
            measured: self.measured.as_slice(),
        };
        let list = Lent::over(self.places.as_mut_slice());
        list_round(rt, self.setting, list, sent, self.fills.as_mut_slice())
    }
}
