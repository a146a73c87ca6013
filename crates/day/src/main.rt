// Deals a request file on the day's pile over a ranked book, and prints what became of each record.
#![tactic(auto)]

use anyhow::anyhow;
use input::read_file;
use listing::day::day_lines;
use piles::kind::OnRanked;
use ranking::rules::Time;

fn main(rt: HostRuntime) -> anyhow::Result<()> {
    run(&rt)
}

fn run(rt: &HostRuntime) -> anyhow::Result<()> {
    let Some(file) = read_file(rt)? else {
        rt.println("too long")?;
        return Ok(());
    };
    let Ok(lines) = day_lines(rt.alloc(), file.as_slice(), &OnRanked, Time) else {
        return Err(anyhow!("out of memory"));
    };
    // Three programs read a file and print lines so: a public function for it could promise nothing of what is printed.
    rt.println("grain 1")?;
    for line in lines.as_slice() {
        rt.println(line)?;
    }
    Ok(())
}
