// Reading an input into lent memory.
#![tactic(auto)]

ghost use Rattle.std.specs.Prelude.{◌≡◌, ◌≤◌, length, IfOk, OnErr};
ghost use Rattle.io.specs.Counts.{IsPrefixLen};

use std::io;
use std::io::Read;

// Reads until the input ends, there is no room left or a read fails: how many bytes are in then.
pub fn read_input<R: Read + Drop>(from: &mut R, input: &mut [u8]) -> io::Result<usize>
    ensures ok { IfOk result (λ count. IsPrefixLen count input.new) }
    ensures err { OnErr result (length input.new ≡ length input.old) }
{
    let mut at = 0;
    // No `for`: each read brings as much as it likes.
    while at < input.len() {
        let count = from.read(&mut input[at..])?;
        if count == 0 {
            break;
        }
        at += count;
    }
    Ok(at)
}
