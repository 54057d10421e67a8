// Runs published vectors against the library and prints, for each file, how many cases it has and how many agree.
#![tactic(auto)]

ghost use Rattle.std.specs.Prelude.{◌≡◌, ◌+◌, ◌-◌, ◌^◌, ◌≤◌, length, min};

use std::rt::Files;
use std::{fs, io};

// Bytes of output in a published case, whose message has fewer.
const BYTES: usize = 512;

// Bytes of a buffer, which holds more than a file of cases.
const ROOM: usize = 524288;

// The byte that two hex digits stand for.
fn byte(pair: &[u8]) -> Option<u8> {
    let [high, low] = pair else {
        return None;
    };
    let high = char::from(*high).to_digit(16)?;
    let low = char::from(*low).to_digit(16)?;
    Some((16 * high + low) as u8)
}

// The hex digits at the start of text as bytes at the start of a buffer, and how many bytes those are.
fn decode(text: &[u8], bytes: &mut [u8; BYTES]) -> usize
    ensures { result ≤ BYTES }
{
    for (n, place) in bytes.iter_mut().enumerate() {
        let Some(value) = text.get(2 * n..2 * n + 2).and_then(byte) else {
            return n;
        };
        *place = value;
    }
    BYTES
}

// A case of SHAKE: the message and 512 bytes of output in hex, parted by a space. An empty message is written -.
fn agrees(set: u64, case: &[u8]) -> bool {
    let mut fields = case.splitn(2, |b| *b == b' ');
    let mut message = [0u8; BYTES];
    let n = decode(fields.next().unwrap_or(&[]), &mut message);
    let mut published = [0u8; BYTES];
    decode(fields.next().unwrap_or(&[]), &mut published);
    let mut output = [0u8; BYTES];
    picnic::picnic_hash(set, &message[..n], &mut output);
    output == published
}

// A line that holds a case: not empty, and no remark.
fn is_case(line: &[u8]) -> bool {
    line.first().is_some_and(|b| *b != b'#')
}

// How many cases a text has, and how many of them agree.
#[derive(Clone, Copy)]
struct Tally {
    cases: u64,
    agree: u64,
    ghost no_more: { agree ≤ cases },
}

impl Tally {
    // One case more. A number that is the largest stays.
    fn with(self, agrees: bool) -> Self
        ensures { (result.cases ≡ min (self.cases + 1) (2 ^ 64 - 1)) × (result.agree ≤ self.agree + 1) }
    {
        Tally {
            cases: self.cases.saturating_add(1),
            agree: self.agree.saturating_add(u64::from(agrees)),
        }
    }
}

// The tally with the case of SHAKE that a line holds, if it holds one.
fn counted(tally: Tally, set: u64, line: &[u8]) -> Tally
    ensures { result.cases ≤ tally.cases + 1 }
{
    if !is_case(line) {
        return tally;
    }
    tally.with(agrees(set, line))
}

// The cases of SHAKE in text, a line each, under the SHAKE of a set.
fn shake_cases(set: u64, text: &[u8]) -> Tally {
    let mut tally = Tally { cases: 0, agree: 0 };
    for line in text.split(|b| *b == b'\n') {
        tally = counted(tally, set, line);
    }
    tally
}

fn show(rt: &impl Print, name: &str, tally: Tally) -> io::Result<()> {
    let Tally { cases, agree } = tally;
    println!(rt; "{name}\t{cases} cases\t{agree} agree")
}

// A buffer of zeros. It is proved for every length, since a proof for ROOM would count that far.
fn zeros<const N: usize>() -> [u8; N]
    ensures { length result ≡ N }
{
    [0; N]
}

// A file of SHAKE cases. One that can't be opened is named on standard error, and passed over.
fn shake_file(rt: &(impl Files + Print + Eprint), name: &str, set: u64) -> io::Result<()> {
    let mut file = match fs::open(rt, name) {
        Ok(file) => file,
        Err(error) => return eprintln!(rt; "{name}: {error}"),
    };
    let mut text = zeros::<ROOM>();
    let n = input::fill(&mut file, &mut text)?;
    show(rt, name, shake_cases(set, &text[..n]))
}

fn main(rt: HostRuntime) -> io::Result<()> {
    shake_file(&rt, "shake128.txt", 1)?;
    shake_file(&rt, "shake256.txt", 2)
}
