// Settles a request file between the day's piles over two books, and prints how the members stand.
#![tactic(auto)]

use anyhow::anyhow;
use input::read_file;
use settlement::day::settlement_lines;

fn main(rt: HostRuntime) -> anyhow::Result<()> {
    run(&rt)
}

fn run(rt: &HostRuntime) -> anyhow::Result<()> {
    let Some(file) = read_file(rt)? else {
        rt.println("too long")?;
        return Ok(());
    };
    let Ok(lines) = settlement_lines(rt.alloc(), file.as_slice()) else {
        return Err(anyhow!("out of memory"));
    };
    // Three programs read a file and print lines so: a public function for it could promise nothing of what is printed.
    rt.println("grain 1")?;
    for line in lines.as_slice() {
        rt.println(line)?;
    }
    Ok(())
}
