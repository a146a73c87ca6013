// Measures how fast a request file is read, or served by a book or a pile: bench WORK PLACES MILLISECONDS <FILE
#![tactic(auto)]

mod books;
mod rounds;
mod words;

use crate::books::Serving;
use crate::rounds::{Reading, Rounds, repeat};
use crate::words::{Kind, Words, read_words};
use std::io::Read;
use std::time::Duration;

const USAGE: &str = "usage: bench WORK PLACES MILLISECONDS <FILE

Goes through a request file again and again for so many milliseconds, at least once.
It prints how many records a round has and how many of them were admitted, or are requests,
and on the error output the rounds and the nanoseconds that they took.

WORK is one of
  read     reads the file
  shelf    serves it on a shelf book
  ranked   serves it on a ranked book
  pile     serves it on a ranked book under wide caps and a wide collar
  last     serves it on a ranked book, and measures the last request alone
";

fn main(rt: HostRuntime) -> anyhow::Result<()> {
    run(&rt)
}

fn run(rt: &HostRuntime) -> anyhow::Result<()> {
    let Some(words) = read_words(rt)? else {
        rt.print(USAGE)?;
        return Ok(());
    };
    let mut file = Vec::new(rt.alloc());
    rt.stdin().read_to_end(&mut file)?;
    let done = measure(rt, words, file.as_slice())?;
    println!(rt; "{} of {}", done.first.admitted, done.first.records)?;
    eprintln!(rt; "{} rounds {} ns", done.count, done.spent.as_nanos())?;
    Ok(())
}

// A switch of two arms, since reading and serving are set up from different things.
fn measure(rt: &HostRuntime, words: Words, file: &[u8]) -> anyhow::Result<Rounds> {
    let least = Duration::from_millis(words.milliseconds);
    match words.kind {
        Kind::Read => repeat(rt, &mut Reading { file }, least),
        Kind::Serve(venue) => {
            let mut serving = Serving::new(rt.alloc(), venue, words.places, file)?;
            repeat(rt, &mut serving, least)
        }
    }
}
