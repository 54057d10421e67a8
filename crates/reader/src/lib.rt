// A reader for Rattle callers: it holds the lent signature and its bit position. Its methods are thin: each leaves the work to
// cursor functions, which take the slice and the position by value. No function asks anything of its caller: byte and bit of a
// position are held apart, so that no number overflows, however long the slice is and wherever a caller puts the position.
#![tactic(auto)]

ghost use Rattle.std.specs.Prelude.{◌≡◌, ◌+◌, ◌*◌, ◌/◌, length, MatchOption, true, false};
ghost use Rattle.bits.specs.Bytes.{width};
ghost use Rattle.reader.specs.Reading.{bit_number, within, next_bit, after_bit, follow, next_bytes, after_bytes, digit_of};
ghost use Rattle.reader.specs.Promises.{Started, BitRead, BytesRead, ValueRead};

use slices::copy;

// The bit with the number 8 * byte + bit, counted from a slice's start. Here bit stays below 8; a caller may make any two numbers.
#[derive(Clone, Copy)]
pub struct Position {
    pub byte: usize,
    pub bit: usize,
}

#[derive(Clone, Copy)]
pub struct Reader<'a> {
    pub signature: &'a [u8],
    pub at: Position,
}

// The byte with the bit at a position, if there is one.
fn byte_at(s: &[u8], at: Position) -> Option<usize>
    ensures { MatchOption result (within s.now (bit_number at) ≡ false)
        (λ byte. (within s.now (bit_number at) ≡ true) × (byte ≡ bit_number at / 8)) }
{
    let byte = at.byte.checked_add(at.bit / 8)?;
    (byte < s.len()).then_some(byte)
}

// The bit at a position; at the end there is none.
pub fn bit_at(s: &[u8], at: Position) -> Option<bool>
    ensures { result ≡ next_bit s.now (bit_number at) }
{
    let byte = byte_at(s, at)?;
    Some((s[byte] >> (7 - at.bit % 8)) % 2 == 1)
}

// The position behind that bit; at the end it stays.
pub fn after_bit(s: &[u8], at: Position) -> Position
    ensures { result ≡ after_bit s.now at }
{
    let Some(byte) = byte_at(s, at) else {
        return at;
    };
    let next = at.bit % 8 + 1;
    Position {
        byte: byte + next / 8,
        bit: next % 8,
    }
}

// The bytes that so many bits take.
fn whole(bits: usize) -> usize
    ensures { result ≡ width bits }
{
    bits.div_ceil(8)
}

// Where n whole bytes that follow a position start, if so many do.
fn start_of(s: &[u8], at: Position, n: usize) -> Option<usize>
    ensures { MatchOption result (follow s.now (bit_number at) n ≡ false)
        (λ start. (follow s.now (bit_number at) n ≡ true) × (start ≡ width (bit_number at))) }
{
    let start = at.byte.checked_add(whole(at.bit))?;
    let left = s.len().checked_sub(start)?;
    (n <= left).then_some(start)
}

// As many whole bytes as out has, from a position on. Where fewer follow, out is kept and the answer is false. The bytes go into
// out, so that beside a bool nothing is left to answer.
pub fn bytes_at(s: &[u8], at: Position, out: &mut [u8]) -> bool
    ensures { (result ≡ follow s.now (bit_number at) (length out.old)) × (out.new ≡ next_bytes s.now (bit_number at) out.old) }
{
    let n = out.len();
    let Some(start) = start_of(s, at, n) else {
        return false;
    };
    copy(&s[start..start + n], out);
    true
}

// The position behind n whole bytes; where fewer follow it stays.
pub fn after_bytes(s: &[u8], at: Position, n: usize) -> Position
    ensures { result ≡ after_bytes s.now at n }
{
    let Some(start) = start_of(s, at, n) else {
        return at;
    };
    Position {
        byte: start + n,
        bit: 0,
    }
}

// A bit as a number; the end counts as a zero bit.
fn digit(b: Option<bool>) -> u8
    ensures { result ≡ digit_of b }
{
    b.map_or(0, u8::from)
}

// The number of two bits, the low bit first.
fn pair(low: Option<bool>, high: Option<bool>) -> u8
    ensures { result ≡ digit_of low + 2 * digit_of high }
{
    digit(low) + 2 * digit(high)
}

impl<'a> Reader<'a> {
    // A reader at the signature's first bit.
    pub fn new(signature: &'a [u8]) -> Reader<'a>
        ensures { Started signature.entry result }
    {
        Reader {
            signature,
            at: Position { byte: 0, bit: 0 },
        }
    }

    // The next bit; the reader then stands behind it. At the end it stays where it is.
    pub fn next_bit<'s>(&'s mut self) -> Option<bool>
        ensures { BitRead self.old result self.new }
    {
        let s = self.signature;
        let at = self.at;
        let found = bit_at(s, at);
        self.at = after_bit(s, at);
        found
    }

    // As many of the next whole bytes as out has; the reader then stands behind them. They start at the first byte that the
    // position is not inside of: what is left of a begun byte is passed over. Where fewer follow, out is kept, the reader stays
    // where it is, and the answer is false.
    pub fn next_bytes<'s, 'b>(&'s mut self, out: &'b mut [u8]) -> bool
        ensures { BytesRead self.old out.old result out.new self.new }
    {
        let s = self.signature;
        let at = self.at;
        let n = out.len();
        let there = bytes_at(s, at, out);
        self.at = after_bytes(s, at, n);
        there
    }
}

// The value at place k of a header, read bit by bit. A bit past the end counts as zero.
pub fn value(signature: &[u8], k: usize) -> u8
    ensures { ValueRead signature.now k result }
{
    let mut reader = Reader {
        signature,
        at: Position {
            byte: k / 4,
            bit: 2 * (k % 4),
        },
    };
    let low = reader.next_bit();
    let high = reader.next_bit();
    pair(low, high)
}
