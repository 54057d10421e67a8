// Reading a signature into its unpacked form, and writing an unpacked form as a signature.
#![tactic(auto)]

ghost use Rattle.std.specs.Prelude.{◌≡◌, ◌+◌, ◌≤◌, length, drop};
ghost use Rattle.slices.specs.Slices.{part, put, over};
ghost use Rattle.sets.specs.Sets.{IsSet};
ghost use Rattle.sets.specs.Lengths.{salt_length, header_length, round_most, longest, unpacked_length};
ghost use Rattle.answers.specs.Answers.{Fine, first, as_answer};
ghost use Rattle.answers.specs.Outcome.{Promise};
ghost use Rattle.shape.specs.Fields.{sizes, unpack, pack, all, is_zero, clean_slots};
ghost use Rattle.shape.specs.Header.{values};
ghost use Rattle.shape.specs.Rounds.{round_fields, rounds_fields, signature_length};
ghost use Rattle.shape.specs.Form.{form, values_in, signature};
ghost use Rattle.shape.specs.Reading.{value_wrong, slot_wrong, write_checks, read_into, write_into, ReadPromise, WritePromise};

use answers::Refusal;
use sets::Set;

// The values of a header, one a byte, at the start of an output.
fn put_values(p: Set, s: &[u8], output: &mut [u8])
    requires { IsSet p × ((header_length p ≤ length s.now) × (p.t ≤ length output.old)) }
    ensures { output.new ≡ over (values p s.now) output.old }
{
    for (k, v) in output[..p.t].iter_mut().enumerate() {
        *v = parts::value(s, k);
    }
}

// A round of value e, from its start in a signature to its slot; where e is 0 the slot ends in zeros.
fn put_slot(p: Set, e: u8, s: &[u8], at: usize, output: &mut [u8], to: usize)
    requires { IsSet p × ((at + sizes (round_fields p e) ≤ length s.now) × (to + round_most p ≤ length output.old)) }
    ensures { output.new ≡ put output.old to (unpack (round_fields p e) (drop at s.now)) }
{
    let n = parts::round_length(p, e);
    let end = at + n;
    slices::place(&s[at..end], output, to);
    if e != 0 {
        return;
    }
    let from = to + n;
    slices::clear(&mut output[from..], p.width());
}

// Every round to its slot.
fn put_slots(p: Set, s: &[u8], output: &mut [u8])
    requires { IsSet p × ((length s.now ≡ signature_length p (values p s.now)) × (unpacked_length p ≤ length output.old)) }
    ensures { output.new ≡ put output.old (p.t + salt_length)
        (unpack (rounds_fields p (values p s.now)) (drop (header_length p + salt_length) s.now)) }
{
    let most = p.round_most();
    let mut at = p.header() + Set::SALT;
    let mut to = p.t + Set::SALT;
    for k in 0..p.t {
        let e = parts::value(s, k);
        put_slot(p, e, s, at, output, to);
        at += parts::round_length(p, e);
        to += most;
    }
}

// The unpacked form of a signature of the exact length, at the start of an output.
pub fn unpack(p: Set, s: &[u8], output: &mut [u8])
    requires { IsSet p × ((length s.now ≡ signature_length p (values p s.now)) × (unpacked_length p ≤ length output.old)) }
    ensures { output.new ≡ over (form p s.now) output.old }
{
    let from = p.header();
    let end = from + Set::SALT;
    put_values(p, s, output);
    slices::place(&s[from..end], output, p.t);
    put_slots(p, s, output);
}

// A value over 2.
fn value_wrong(p: Set, x: &[u8]) -> bool
    requires { IsSet p × (p.t ≤ length x.now) }
    ensures { result ≡ value_wrong p x.now }
{
    x[..p.t].iter().any(|v| 3 <= *v)
}

// The n bytes from a place on are zero.
fn zeros(x: &[u8], at: usize, n: usize) -> bool
    requires { at + n ≤ length x.now }
    ensures { result ≡ all is_zero (part x.now at n) }
{
    x[at..at + n].iter().all(|b| *b == 0)
}

// The slot of a round of value e has zero padding, and a zero share where e is 0.
fn slot_clean(p: Set, e: u8, x: &[u8], at: usize) -> bool
    requires { IsSet p × (at + round_most p ≤ length x.now) }
    ensures { result ≡ clean_slots (round_fields p e) (drop at x.now) }
{
    if !parts::padded(x, at + p.digest, parts::gates(p)) {
        return false;
    }
    if e != 0 {
        return true;
    }
    zeros(x, at + p.round_least(), p.width())
}

// Transcript padding not zero, or a share not zero beside value 0, in some round.
fn slot_wrong(p: Set, x: &[u8]) -> bool
    requires { IsSet p × (length x.now ≡ unpacked_length p) }
    ensures { result ≡ slot_wrong p x.now }
{
    let most = p.round_most();
    let first = p.t + Set::SALT;
    (0..p.t).any(|k| !slot_clean(p, x[k], x, first + k * most))
}

// The first check of writing that holds.
pub fn check_form(p: Set, x: &[u8]) -> Result<(), Refusal>
    requires { IsSet p }
    ensures { result ≡ first (write_checks p x.now) }
{
    if x.len() != p.unpacked_length() {
        return Err(Refusal::Length);
    }
    if value_wrong(p, x) {
        return Err(Refusal::Header);
    }
    if slot_wrong(p, x) {
        return Err(Refusal::Padding);
    }
    Ok(())
}

// Every round from its slot to its place in a signature, and where the last one ends.
fn put_rounds(p: Set, x: &[u8], output: &mut [u8]) -> usize
    requires { IsSet p × ((length x.now ≡ unpacked_length p) × (longest p ≤ length output.old)) }
    ensures { (result ≡ signature_length p (values_in p x.now))
        × (output.new ≡ put output.old (header_length p + salt_length)
        (pack (rounds_fields p (values_in p x.now)) (drop (p.t + salt_length) x.now))) }
{
    let most = p.round_most();
    let mut from = p.t + Set::SALT;
    let mut at = p.header() + Set::SALT;
    for k in 0..p.t {
        let n = parts::round_length(p, x[k]);
        let end = from + n;
        slices::place(&x[from..end], output, at);
        at += n;
        from += most;
    }
    at
}

// The signature of an unpacked form that passed its checks, at the start of an output; its length.
pub fn pack(p: Set, x: &[u8], output: &mut [u8]) -> usize
    requires { IsSet p × ((first (write_checks p x.now) ≡ Fine) × (longest p ≤ length output.old)) }
    ensures { (result ≡ length (signature p x.now)) × (output.new ≡ over (signature p x.now) output.old) }
{
    let t = p.t;
    let end = t + Set::SALT;
    parts::put_header(p, &x[..t], output);
    slices::place(&x[t..end], output, p.header());
    put_rounds(p, x, output)
}

// Reading for a set that is known.
fn read_into(p: Set, s: &[u8], output: &mut [u8]) -> Result<u32, Refusal>
    requires { IsSet p }
    ensures { Promise (read_into p s.now (length output.old)) output.old (as_answer result) output.new }
{
    let n = p.unpacked_length();
    if output.len() < n {
        return Err(Refusal::Room);
    }
    parts::check(p, s)?;
    unpack(p, s, output);
    Ok(n as u32)
}

// Writing for a set that is known.
fn write_into(p: Set, x: &[u8], output: &mut [u8]) -> Result<u32, Refusal>
    requires { IsSet p }
    ensures { Promise (write_into p x.now (length output.old)) output.old (as_answer result) output.new }
{
    if output.len() < p.longest() {
        return Err(Refusal::Room);
    }
    check_form(p, x)?;
    Ok(pack(p, x, output) as u32)
}

// A signature into its unpacked form: what the exported call does.
pub fn read(set: u64, s: &[u8], output: &mut [u8]) -> Result<u32, Refusal>
    ensures { ReadPromise set s.now output.old (as_answer result) output.new }
{
    let p = Set::numbered(set).ok_or(Refusal::NoSet)?;
    read_into(p, s, output)
}

// An unpacked form into its signature: what the exported call does.
pub fn write(set: u64, x: &[u8], output: &mut [u8]) -> Result<u32, Refusal>
    ensures { WritePromise set x.now output.old (as_answer result) output.new }
{
    let p = Set::numbered(set).ok_or(Refusal::NoSet)?;
    write_into(p, x, output)
}
