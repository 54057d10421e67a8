// Reads a signature of set 1 on standard input and prints the values of its header, one digit each, as a reader finds them bit
// by bit. Of input that is shorter than a header it prints the values that are there.
#![tactic(auto)]

use sets::Set;
use std::io;

// The values of a header of set 1.
const VALUES: usize = Set::L1.t;

// Bytes of a buffer, which holds more than a header.
const ROOM: usize = 65536;

fn print_values(rt: &impl Print, s: &[u8]) -> io::Result<()> {
    for k in 0..VALUES {
        if k / 4 < s.len() {
            let value = reader::value(s, k);
            print!(rt; "{value}")?;
        }
    }
    Ok(())
}

fn main(rt: HostRuntime) -> io::Result<()> {
    let mut bytes = [0u8; ROOM];
    let n = input::fill(&mut rt.reader(), &mut bytes)?;
    print_values(&rt, &bytes[..n])?;
    println!(rt)
}
