// Deals a request file on four piles, two kinds of book under two rules, and prints the listing of each.
#![tactic(auto)]

use anyhow::anyhow;
use input::read_file;
use listing::day::day_lines;
use piles::kind::{Kind, OnRanked, OnShelf};
use ranking::rank::Priority;
use ranking::rules::{Size, Time};

fn main(rt: HostRuntime) -> anyhow::Result<()> {
    run(&rt)
}

fn run(rt: &HostRuntime) -> anyhow::Result<()> {
    let Some(file) = read_file(rt)? else {
        rt.println("too long")?;
        return Ok(());
    };
    let file = file.as_slice();
    print_book(rt, "shelf time", file, &OnShelf, Time)?;
    print_book(rt, "ranked time", file, &OnRanked, Time)?;
    print_book(rt, "shelf size", file, &OnShelf, Size)?;
    print_book(rt, "ranked size", file, &OnRanked, Size)
}

fn print_book<K: Kind, R: Priority + Drop>(
    rt: &HostRuntime,
    name: &str,
    file: &[u8],
    kind: &K,
    rule: R,
) -> anyhow::Result<()> {
    let Ok(lines) = day_lines(rt.alloc(), file, kind, rule) else {
        return Err(anyhow!("out of memory"));
    };
    // Three programs read a file and print lines so: a public function for it could promise nothing of what is printed.
    rt.println(name)?;
    rt.println("grain 1")?;
    for line in lines.as_slice() {
        rt.println(line)?;
    }
    Ok(())
}
