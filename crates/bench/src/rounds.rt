use orders::request::Request;
use request_file::reader::Reader;
use std::time::{Duration, Instant};

// What one round did, and how long it took.
#[derive(Clone, Copy)]
pub struct Round {
    pub records: usize,
    pub admitted: usize,
    pub spent: Duration,
}

// How many rounds there were, what all of them took, and what the first of them did.
#[derive(Clone, Copy)]
pub struct Rounds {
    pub count: u32,
    pub spent: Duration,
    pub first: Round,
}

// Work that is set up anew for each round; the setting up is not in its time.
pub trait Work {
    fn round(&mut self, rt: &HostRuntime) -> anyhow::Result<Round>;
}

// The most rounds of one measurement.
const MOST: u32 = 10_000_000;

// Does some work again and again for so long, at least once.
pub fn repeat<W: Work>(rt: &HostRuntime, work: &mut W, least: Duration) -> anyhow::Result<Rounds> {
    let first = work.round(rt)?;
    let mut done = Rounds {
        count: 1,
        spent: first.spent,
        first,
    };
    for count in 2..MOST {
        if done.spent >= least {
            break;
        }
        let round = work.round(rt)?;
        done.count = count;
        done.spent = done.spent.saturating_add(round.spent);
    }
    Ok(done)
}

// A file to be read.
#[derive(Clone, Copy)]
pub struct Reading<'a> {
    pub file: &'a [u8],
}

impl<'a> Work for Reading<'a> {
    fn round(&mut self, rt: &HostRuntime) -> anyhow::Result<Round> {
        let start = Instant::now(rt)?;
        let mut records = 0usize;
        let mut admitted = 0usize;
        for item in Reader::over(self.file) {
            records = records.saturating_add(1);
            let Ok(located) = item else {
                continue;
            };
            if Request::try_from(&located.record.row()).is_ok() {
                admitted = admitted.saturating_add(1);
            }
        }
        Ok(Round {
            records,
            admitted,
            spent: start.elapsed(rt)?,
        })
    }
}
