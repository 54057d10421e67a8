// What signing and verifying share: the bytes of a party, and the working room that a round's output shares and commitments go into.
#![tactic(auto, using(crate::proofs::Fits::fits))]

ghost use Rattle.std.specs.Prelude.{◌≡◌, ◌++◌, ◌+◌, ◌*◌, ◌≤◌, ◌<◌, length, take};
ghost use Rattle.slices.specs.Slices.{Bytes, put};
ghost use Rattle.bits.specs.Bytes.{bytes_of};
ghost use Rattle.bits.specs.Words.{block_bits};
ghost use Rattle.bits.specs.Rows.{Rows, flat, Rowed};
ghost use Rattle.sets.specs.Sets.{IsSet};
ghost use Rattle.sets.specs.Lengths.{w, transcript_length, room_length};
ghost use Rattle.circuit.specs.Round.{Party};
ghost use Rattle.circuit.specs.Tapes.{party_number, tape_length};
ghost use Rattle.lowmc.specs.Lent.{cipher_of};
ghost use Rattle.round.specs.Engine.{Written};
ghost use Rattle.hashing.specs.Hashing.{h, commitment};
ghost use Rattle.challenge.specs.Filling.{Fills};
ghost use Rattle.views.specs.Parties.{party_of, from_party, three};
ghost use Rattle.views.specs.Signed.{tape_of};
ghost use Rattle.views.specs.Input.{challenge_input};
ghost use Rattle.room.specs.Room.{shares_at, commitments_at};

use answers::Refusal;
use bits::{Block, Strip};
use sets::Set;

// The bytes of the tape of party j.
pub fn tape_length(p: Set, j: usize) -> usize
    requires { IsSet p }
    ensures { (result ≤ 175) × ((keys layers constants : Bytes) (k : Party) → j ≡ party_number k → result ≡ tape_length (cipher_of p keys layers constants) k) × (w p ≤ result) }
{
    let m = p.transcript();
    if j == 2 { m } else { p.width() + m }
}

// The tape of party j in round t, at the start of an array. Arrays here are as long as the greatest set asks for: how many of
// their bytes are used follows from the set, and no heap is used.
pub fn party_tape(p: Set, seed: &[u8], salt: &[u8], t: usize, j: usize) -> [u8; 175]
    requires { IsSet p × (t < 65536) × (j < 3) }
    ensures { (keys layers constants : Bytes) (k : Party) → j ≡ party_number k
        → take (tape_length (cipher_of p keys layers constants) k) result
        ≡ tape_of p (cipher_of p keys layers constants) salt.now t k seed.now }
{
    let n = tape_length(p, j);
    let mut s = [0u8; 175];
    hashing::tape(p, seed, salt, t as u16, j as u16, &mut s[..n]);
    s
}

// Three slices one after the other, from a place on.
// By names: one function over a slice of slices takes more proof than this, and each caller has to regroup what it puts.
fn put_three(a: &[u8], b: &[u8], c: &[u8], d: &mut [u8], at: usize)
    requires { at + length a.now + length b.now + length c.now ≤ length d.old }
    ensures { d.new ≡ put d.old at (a.now ++ (b.now ++ c.now)) }
{
    let to_b = at + a.len();
    let to_c = to_b + b.len();
    slices::place(a, d, at);
    slices::place(b, d, to_b);
    slices::place(c, d, to_c);
}

// The same by party, where x is of party e, y of e+1 and z of e+2.
pub fn put_by_party(e: u8, x: &[u8], y: &[u8], z: &[u8], d: &mut [u8], at: usize)
    requires { at + length x.now + length y.now + length z.now ≤ length d.old }
    ensures { d.new ≡ put d.old at (three (from_party (party_of e) x.now y.now z.now)) }
{
    match e {
        0 => put_three(x, y, z, d, at),
        1 => put_three(z, x, y, d, at),
        _ => put_three(y, z, x, d, at),
    }
}

// The n bits of a block as bytes, at the start of an array.
pub fn stored(p: Set, x: Block) -> [u8; 32]
    requires { IsSet p }
    ensures { take (w p) result ≡ bytes_of p.n (block_bits x) }
{
    let w = p.width();
    let mut s = [0u8; 32];
    x.store(&mut s[..w]);
    s
}

// The rows of a transcript as bytes, at the start of an array.
pub fn transcribed(p: Set, said: Strip) -> [u8; 143]
    requires { IsSet p × Rowed (3 * p.s) p.r said.words }
    ensures { (u : Rows) → Written (3 * p.s) p.r u said.words → take (transcript_length p) result ≡ bytes_of (3 * p.s * p.r) (flat (3 * p.s) u) }
{
    let m = p.transcript();
    let mut s = [0u8; 143];
    round::write_rows(p, said, &mut s[..m]);
    s
}

// The commitment to a seed, an input share, a transcript and an output share, at the start of an array.
pub fn committed(
    p: Set,
    seed: &[u8],
    share: &[u8],
    transcript: &[u8],
    output_share: &[u8],
) -> [u8; 64]
    requires { IsSet p }
    ensures { take p.digest result ≡ commitment p seed.now share.now transcript.now output_share.now }
{
    let n = p.digest;
    let mut d = [0u8; 64];
    hashing::commit(p, seed, share, transcript, output_share, &mut d[..n]);
    d
}

// The same, where the output share is a block.
pub fn committed_block(
    p: Set,
    seed: &[u8],
    share: &[u8],
    transcript: &[u8],
    output_share: Block,
) -> [u8; 64]
    requires { IsSet p }
    ensures { take p.digest result
        ≡ commitment p seed.now share.now transcript.now (bytes_of p.n (block_bits output_share)) }
{
    let w = p.width();
    let y = stored(p, output_share);
    committed(p, seed, share, transcript, &y[..w])
}

// The output shares of round t in the room: x of party e, y of e+1 and z of e+2.
pub fn put_outputs(p: Set, t: usize, e: u8, x: Block, y: Block, z: Block, room: &mut [u8])
    requires { IsSet p × (t < p.t) × (room_length p ≤ length room.old) }
    ensures { room.new ≡ put room.old (shares_at p t)
        (three (from_party (party_of e) (bytes_of p.n (block_bits x)) (bytes_of p.n (block_bits y)) (bytes_of p.n (block_bits z)))) }
{
    let w = p.width();
    let a = stored(p, x);
    let b = stored(p, y);
    let c = stored(p, z);
    put_by_party(e, &a[..w], &b[..w], &c[..w], room, t * (3 * w));
}

// The commitments of round t in the room: x of party e, y of e+1 and z of e+2.
pub fn put_commitments(p: Set, t: usize, e: u8, x: &[u8], y: &[u8], z: &[u8], room: &mut [u8])
    requires { IsSet p × (t < p.t) × (room_length p ≤ length room.old)
        × (length x.now ≡ p.digest) × (length y.now ≡ p.digest) × (length z.now ≡ p.digest) }
    ensures { room.new ≡ put room.old (commitments_at p t)
        (three (from_party (party_of e) x.now y.now z.now)) }
{
    let at = p.t * (3 * p.width()) + t * (3 * p.digest);
    put_by_party(e, x, y, z, room, at);
}

// The challenge of a filled room, public key, salt and message: T values at the start of out, one a byte; refused if they do not
// fill place T.
pub fn challenge(
    p: Set,
    filled: &[u8],
    salt: &[u8],
    public: &[u8],
    message: &[u8],
    limit: u64,
    out: &mut [u8],
) -> Result<(), Refusal>
    requires { IsSet p × (p.t ≤ length out.old) }
    ensures { Fills p (h p 1 (challenge_input filled.now salt.now public.now message.now)) limit
        out.old result out.new }
{
    let s = hashing::prefixed(p, 1).absorb(filled).absorb(public);
    let u = s.absorb(salt).absorb(message);
    challenge::fill(p, challenge::first_block(p, u), limit, out)
}
