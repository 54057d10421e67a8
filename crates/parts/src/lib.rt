// The parts of a signature in place: values, lengths, padding, where each round's parts stand, and writing a round's parts.
#![tactic(auto)]

ghost use Rattle.std.specs.Prelude.{◌≡◌, ◌++◌, ◌+◌, ◌*◌, ◌/◌, ◌%◌, ◌≤◌, ◌<◌, length, drop};
ghost use Rattle.slices.specs.Slices.{put, over};
ghost use Rattle.bits.specs.Bits.{from};
ghost use Rattle.bits.specs.Bytes.{value, width};
ghost use Rattle.sets.specs.Sets.{IsSet};
ghost use Rattle.sets.specs.Lengths.{salt_length, header_length, transcript_bits};
ghost use Rattle.answers.specs.Answers.{first};
ghost use Rattle.shape.specs.Fields.{all, sizes, zero_padded};
ghost use Rattle.shape.specs.Header.{pair_bits, header_of, value_at, values, is_value, AreValues};
ghost use Rattle.shape.specs.Rounds.{round_fields, signature_length};
ghost use Rattle.shape.specs.Form.{Sized, round_of};
ghost use Rattle.shape.specs.Reading.{header_wrong, padding_wrong, read_checks};
ghost use Rattle.parts.specs.Places.{parts_at, Stands, Located, shown_by};

use answers::Refusal;
use sets::Set;

// Where a round's parts stand; next is where the next round starts.
#[derive(Clone, Copy)]
pub struct Parts {
    pub commitment: usize,
    pub transcript: usize,
    pub seed1: usize,
    pub seed2: usize,
    pub share: usize,
    pub next: usize,
}

// What is shown of a round, lent part by part.
#[derive(Clone, Copy)]
pub struct Shown<'a> {
    pub commitment: &'a [u8],
    pub transcript: &'a [u8],
    pub seed1: &'a [u8],
    pub seed2: &'a [u8],
    pub share: &'a [u8],
}

// A round, and where it starts.
#[derive(Clone, Copy)]
pub struct Cursor {
    pub round: usize,
    pub at: usize,
}

// What is found at a round, and the cursor behind it.
#[derive(Clone, Copy)]
pub struct Here {
    pub value: u8,
    pub parts: Parts,
    pub next: Cursor,
}

// The two bits of a pair exchanged: of a value a header has the low bit first, and a number the high bit.
fn exchanged(v: u8) -> u8
    ensures { result ≡ 2 * (v % 2) + v / 2 }
{
    2 * (v % 2) + v / 2
}

// The value at place k of a header: the pair's first bit is the value's low bit.
pub fn value(s: &[u8], k: usize) -> u8
    requires { k < 4 * length s.now }
    ensures { result ≡ value_at s.now k }
{
    exchanged((s[k / 4] >> (6 - 2 * (k % 4))) % 4)
}

// No pair is 11.
fn all_values(p: Set, s: &[u8]) -> bool
    requires { IsSet p × (header_length p ≤ length s.now) }
    ensures { result ≡ all is_value (values p s.now) }
{
    (0..p.t).all(|k| value(s, k) < 3)
}

// The bits behind the first m of a field that starts at a place, to the byte, are zero.
pub fn padded(s: &[u8], at: usize, m: usize) -> bool
    requires { (0 < m) × ((m ≤ 65536) × (at + width m ≤ length s.now)) }
    ensures { result ≡ zero_padded m (drop at s.now) }
{
    let n = m.div_ceil(8);
    let last = at + (n - 1);
    let unit = 1u8 << (8 * n - m);
    s[last] % unit == 0
}

// A header pair 11, or header padding not zero.
fn header_wrong(p: Set, s: &[u8]) -> bool
    requires { IsSet p × (header_length p ≤ length s.now) }
    ensures { result ≡ header_wrong p s.now }
{
    !all_values(p, s) || !padded(s, 0, 2 * p.t)
}

// The length of a round of value e.
pub fn round_length(p: Set, e: u8) -> usize
    requires { IsSet p }
    ensures { result ≡ sizes (round_fields p e) }
{
    if e != 0 {
        return p.round_most();
    }
    p.round_least()
}

// The length that the header asks for.
fn full_length(p: Set, s: &[u8]) -> usize
    requires { IsSet p × (header_length p ≤ length s.now) }
    ensures { result ≡ signature_length p (values p s.now) }
{
    let mut at = p.header() + Set::SALT;
    for k in 0..p.t {
        at += round_length(p, value(s, k));
    }
    at
}

// The bits of a transcript.
pub fn gates(p: Set) -> usize
    requires { IsSet p }
    ensures { result ≡ transcript_bits p }
{
    3 * p.s * p.r
}

// Transcript padding not zero, in some round.
fn padding_wrong(p: Set, s: &[u8]) -> bool
    requires { IsSet p × (length s.now ≡ signature_length p (values p s.now)) }
    ensures { result ≡ padding_wrong p s.now }
{
    let m = gates(p);
    let mut at = p.header() + Set::SALT;
    for k in 0..p.t {
        if !padded(s, at + p.digest, m) {
            return true;
        }
        at += round_length(p, value(s, k));
    }
    false
}

// The first check of reading that holds.
pub fn check(p: Set, s: &[u8]) -> Result<(), Refusal>
    requires { IsSet p }
    ensures { result ≡ first (read_checks p s.now) }
{
    if s.len() < p.header() + Set::SALT {
        return Err(Refusal::Length);
    }
    if header_wrong(p, s) {
        return Err(Refusal::Header);
    }
    if s.len() != full_length(p, s) {
        return Err(Refusal::Length);
    }
    if padding_wrong(p, s) {
        return Err(Refusal::Padding);
    }
    Ok(())
}

// Where the parts of a round of value e stand, if it starts at a place.
pub fn places(p: Set, e: u8, at: usize) -> Parts
    requires { IsSet p × (at ≤ 1000000) }
    ensures { result ≡ parts_at p e at }
{
    let transcript = at + p.digest;
    let seed1 = transcript + p.transcript();
    Parts {
        commitment: at,
        transcript,
        seed1,
        seed2: seed1 + p.seed_width(),
        share: at + p.round_least(),
        next: at + round_length(p, e),
    }
}

// The cursor at the first round.
pub fn start(p: Set) -> Cursor
    requires { IsSet p }
    ensures { (result.round ≡ 0) × (result.at ≡ header_length p + salt_length) }
{
    Cursor {
        round: 0,
        at: p.header() + Set::SALT,
    }
}

// The value of a round and the places of its parts, in a signature of the exact length.
pub fn locate(p: Set, s: &[u8], c: Cursor) -> Here
    requires { IsSet p × ((length s.now ≡ signature_length p (values p s.now)) × ((c.round < p.t) × Stands p s.now c)) }
    ensures { Located p s.now c.round result }
{
    let k = c.round;
    let at = c.at;
    let e = value(s, k);
    let q = places(p, e, at);
    let n = q.next;
    Here {
        value: e,
        parts: q,
        next: Cursor {
            round: k + 1,
            at: n,
        },
    }
}

// The pair of the value at place k, and 00 behind the last.
fn pair(values: &[u8], k: usize) -> u8
    requires { AreValues values.now }
    ensures { result ≡ value 2 (from (2 * k) (pair_bits values.now)) }
{
    exchanged(values.get(k).copied().unwrap_or(0))
}

// Byte i of a header: the pairs of four values, the first in the high bits.
fn header_byte(values: &[u8], i: usize) -> u8
    requires { (i ≤ 65536) × AreValues values.now }
    ensures { result ≡ value 8 (from (8 * i) (pair_bits values.now)) }
{
    let k = 4 * i;
    pair(values, k) * 64 + pair(values, k + 1) * 16 + pair(values, k + 2) * 4 + pair(values, k + 3)
}

// The header of T values, at the start of an output.
pub fn put_header(p: Set, values: &[u8], output: &mut [u8])
    requires { IsSet p × ((length values.now ≡ p.t) × (AreValues values.now × (header_length p ≤ length output.old))) }
    ensures { output.new ≡ over (header_of p values.now) output.old }
{
    let n = p.header();
    for (i, byte) in output[..n].iter_mut().enumerate() {
        *byte = header_byte(values, i);
    }
}

// Four slices one after the other, from a place of an output on. By names: a proof has no array of references whose length is a
// parameter.
fn put_four(a: &[u8], b: &[u8], c: &[u8], d: &[u8], output: &mut [u8], at: usize)
    requires { at + length a.now + length b.now + length c.now + length d.now ≤ length output.old }
    ensures { output.new ≡ put output.old at (a.now ++ (b.now ++ (c.now ++ d.now))) }
{
    let to_b = at + a.len();
    let to_c = to_b + b.len();
    let to_d = to_c + c.len();
    slices::place(a, output, at);
    slices::place(b, output, to_b);
    slices::place(c, output, to_c);
    slices::place(d, output, to_d);
}

// A round of value e at a place of an output, and where the next one starts. Where e is 0 the share is left out.
pub fn put_round(p: Set, e: u8, shown: Shown<'_>, output: &mut [u8], at: usize) -> usize
    requires { IsSet p × (Sized p (shown_by shown) × (at + sizes (round_fields p e) ≤ length output.old)) }
    ensures { (result ≡ at + sizes (round_fields p e))
        × (output.new ≡ put output.old at (round_of p e (shown_by shown.entry))) }
{
    let Shown {
        commitment,
        transcript,
        seed1,
        seed2,
        share,
    } = shown;
    put_four(commitment, transcript, seed1, seed2, output, at);
    let end = at + p.round_least();
    if e == 0 {
        return end;
    }
    slices::place(share, output, end);
    end + p.width()
}
