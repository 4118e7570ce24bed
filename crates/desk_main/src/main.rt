// The desk program: one case from standard input, the reply to standard output. A read or a write that fails is told on standard error,
// and of an input that was not read to its end nothing is said on standard output.
#![tactic(auto)]

use std::io;
use std::io::Write;

// Room for the input, and for a byte more than the program reads, so that an input that is too long is seen to be.
const INPUT: usize = 16385;

fn main(rt: HostRuntime) -> io::Result<()> {
    let mut input = [0u8; INPUT];
    let count = match read_input::read_input(&mut rt.stdin(), &mut input) {
        Ok(count) => count,
        Err(error) => return eprintln!(rt; "standard input: {error}"),
    };
    let mut out = [0u8; call_desk::ROOM];
    let length = call_desk::reply(&input[..count], &mut out);
    if let Err(error) = rt.stdout().write_all(&out[..length]) {
        return eprintln!(rt; "standard output: {error}");
    }
    Ok(())
}
