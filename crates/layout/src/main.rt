// Reads a signature of set 1 on standard input and prints its layout: the set and the length, then how many values are 0, 1
// and 2; or the number with which it is refused. A buffer holds more than the longest signature, so that input that it cuts
// off is refused with the same number as the whole of it.
#![tactic(auto)]

ghost use Rattle.std.specs.Prelude.{◌≡◌};
ghost use Rattle.layout.specs.Counts.{how_many};

use sets::Set;
use std::io;

// The values that an unpacked form of set 1 starts with.
const VALUES: usize = Set::L1.t;

// Bytes of a buffer. The longest signature of set 1 has 34032, and its unpacked form 34196.
const ROOM: usize = 65536;

// How many of the values are v.
fn count(values: &[u8], v: u8) -> usize
    ensures { result ≡ how_many v values.now }
{
    values.iter().filter(|value| **value == v).count()
}

// The layout of a signature of so many bytes with these values.
fn print_layout(rt: &impl Print, length: usize, values: &[u8]) -> io::Result<()> {
    println!(rt; "signature\t1\t{length}")?;
    let [zeros, ones, twos] = [0, 1, 2].map(|v| count(values, v));
    println!(rt; "challenge\t{zeros}\t{ones}\t{twos}")
}

fn main(rt: HostRuntime) -> io::Result<()> {
    let mut bytes = [0u8; ROOM];
    let n = input::fill(&mut rt.reader(), &mut bytes)?;
    let mut form = [0u8; ROOM];
    match signature::read(1, &bytes[..n], &mut form) {
        Ok(_) => print_layout(&rt, n, &form[..VALUES]),
        Err(refusal) => {
            let number = u64::from(refusal);
            println!(rt; "refused\t{number}")
        }
    }
}
