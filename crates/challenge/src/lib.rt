// The challenge: blocks hashed one from the other, and values read from their pairs of bits until place T is filled.
#![tactic(auto)]

ghost use Rattle.std.specs.Prelude.{◌≡◌, ◌∷◌, ◌*◌, ◌≤◌, ◌<◌, length, take};
ghost use Rattle.slices.specs.Slices.{Bytes};
ghost use Rattle.sets.specs.Sets.{IsSet};
ghost use Rattle.answers.specs.Answers.{as_answer};
ghost use Rattle.shake.specs.Sponge.{started, absorbed, Taking};
ghost use Rattle.hashing.specs.Hashing.{h};
ghost use Rattle.challenge.specs.Pairs.{pair};
ghost use Rattle.challenge.specs.Filling.{Fills};
ghost use Rattle.challenge.specs.ChallengeCall.{ChallengePromise};

use answers::Refusal;
use sets::Set;
use shake::Sponge;

// The pair 11, which gives no value; each other pair is its value.
const PAIR_11: u8 = 3;

// The pair of bits at place j of s.
fn pair(s: &[u8], j: usize) -> u8
    requires { j < 4 * length s.now }
    ensures { result ≡ pair s.now j }
{
    (s[j / 4] >> (6 - 2 * (j % 4))) % 4
}

// The block of a sponge that was fed the byte 1 and an input. A block stands in the first bytes of an array.
pub fn first_block(p: Set, s: Sponge) -> [u8; 64]
    requires { IsSet p × Taking s }
    ensures { (x : Bytes) → s ≡ absorbed (started p.rate) (1 ∷ x) → take p.digest result ≡ h p 1 x }
{
    let n = p.digest;
    let mut block = [0u8; 64];
    let u = s.pad();
    u.squeeze(&mut block[..n]);
    block
}

// The block of an input that is one string, or of the block before.
pub fn block(p: Set, input: &[u8]) -> [u8; 64]
    requires { IsSet p }
    ensures { take p.digest result ≡ h p 1 input.now }
{
    let s = hashing::prefixed(p, 1).absorb(input);
    first_block(p, s)
}

// The first T values of at most limit blocks at the start of out, one a byte; refused if they do not fill place T.
// The first block stands in the first bytes of first.
pub fn fill(p: Set, first: [u8; 64], limit: u64, out: &mut [u8]) -> Result<(), Refusal>
    requires { IsSet p × (p.t ≤ length out.old) }
    ensures { Fills p (take p.digest first) limit out.old result out.new }
{
    let digest = p.digest;
    let t = p.t;
    let pairs = 4 * digest;
    let mut b = first;
    let mut got = 0;
    'reading: for k in 0..limit {
        for j in 0..pairs {
            let v = pair(&b, j);
            if v < PAIR_11 {
                out[got] = v;
                got += 1;
                if got == t {
                    break 'reading;
                }
            }
        }
        b = block(p, &b[..digest]);
    }
    if got < t {
        Err(Refusal::Blocks)
    } else {
        Ok(())
    }
}

// The challenge call. Refusal 8 keeps the output, so the values go into an array first.
pub fn challenge(set: u64, input: &[u8], limit: u64, output: &mut [u8]) -> Result<u32, Refusal>
    ensures { ChallengePromise set input.now limit output.old (as_answer result) output.new }
{
    let p = Set::numbered(set).ok_or(Refusal::NoSet)?;
    if answers::limit_out(limit) {
        return Err(Refusal::Limit);
    }
    let t = p.t;
    if output.len() < t {
        return Err(Refusal::Room);
    }
    let mut values = [0u8; 438];
    fill(p, block(p, input), limit, &mut values)?;
    slices::copy(&values[..t], output);
    Ok(t as u32)
}
