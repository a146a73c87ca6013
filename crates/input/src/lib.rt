// Reads a program's standard input, within a bound.
#![tactic(auto)]

ghost use Rattle.std.specs.Prelude.{◌≤◌, IfSome, IfOk, vec_len};

use std::io;
use std::io::Read;

// The longest file that is read, in bytes.
const LONGEST: usize = 65536;

// All of standard input, or nothing where it is too long.
pub fn read_file(rt: &HostRuntime) -> io::Result<Option<Vec<u8>>>
    ensures { IfOk result (λ o. IfSome o (λ file. vec_len file ≤ 65536)) }
{
    let mut file = Vec::new(rt.alloc());
    rt.stdin().take(LONGEST as u64 + 1).read_to_end(&mut file)?;
    if file.len() > LONGEST {
        return Ok(None);
    }
    Ok(Some(file))
}
