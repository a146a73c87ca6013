use anyhow::anyhow;
use std::env;
use std::str::FromStr;

// What requests are served on, and how much of it is measured.
#[derive(Clone, Copy)]
pub enum Setting {
    Shelf,
    Ranked,
    Pile,
    LastAlone,
}

// What is measured.
#[derive(Clone, Copy)]
pub enum Kind {
    Read,
    Serve(Setting),
}

// The words of a command.
#[derive(Clone, Copy)]
pub struct Words {
    pub kind: Kind,
    pub places: usize,
    pub milliseconds: u64,
}

// The words after the program's name, or nothing where there are none.
pub fn read_words(rt: &HostRuntime) -> anyhow::Result<Option<Words>> {
    let mut arguments = env::args(rt)?;
    let _ = arguments.next();
    let Some(work) = arguments.next() else {
        return Ok(None);
    };
    let Some(places) = arguments.next() else {
        return Err(anyhow!("PLACES is missing"));
    };
    let Some(milliseconds) = arguments.next() else {
        return Err(anyhow!("MILLISECONDS is missing"));
    };
    Ok(Some(Words {
        kind: work.as_str().parse::<Kind>()?,
        places: places.as_str().parse::<usize>()?,
        milliseconds: milliseconds.as_str().parse::<u64>()?,
    }))
}

impl FromStr for Kind {
    type Err = anyhow::Error;

    fn from_str(word: &str) -> anyhow::Result<Kind> {
        match word {
            "read" => Ok(Kind::Read),
            "shelf" => Ok(Kind::Serve(Setting::Shelf)),
            "ranked" => Ok(Kind::Serve(Setting::Ranked)),
            "pile" => Ok(Kind::Serve(Setting::Pile)),
            "last" => Ok(Kind::Serve(Setting::LastAlone)),
            _ => Err(anyhow!("WORK is none of read, shelf, ranked, pile and last")),
        }
    }
}
