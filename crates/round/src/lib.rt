// The engine: LowMC's circuit on words, simulated for three parties and recomputed for two.
// A row of gates, of a tape or of a transcript, stands at the top of a word. No branch and no index depends on a secret.
#![tactic(auto)]

ghost use Rattle.std.specs.Prelude.{◌≡◌, cond, ℕ, ◌*◌, ◌≤◌, ◌<◌, false, get_or, length, set};
ghost use Rattle.slices.specs.Slices.{Bytes};
ghost use Rattle.bits.specs.Bits.{◌⊕◌, zeros, up_to, from};
ghost use Rattle.bits.specs.Bytes.{bits_of, bytes_of};
ghost use Rattle.bits.specs.Words.{word_bits, block_bits};
ghost use Rattle.bits.specs.Rows.{Rows, cut, flat, rows_of, Rowed};
ghost use Rattle.sets.specs.Sets.{IsSet};
ghost use Rattle.sets.specs.Lengths.{w, transcript_length};
ghost use Rattle.circuit.specs.Lowmc.{start};
ghost use Rattle.circuit.specs.Gates.{sboxes_by};
ghost use Rattle.circuit.specs.Round.{Party, party0, party1, party2, next, gates, advance};
ghost use Rattle.circuit.specs.RoundTheorems.{xor3};
ghost use Rattle.circuit.specs.Tapes.{party_number};
ghost use Rattle.lowmc.specs.Lent.{cipher_of};
ghost use Rattle.lowmc.specs.Cipher.{cipher};
ghost use Rattle.lowmc.specs.Vectors.{at};
ghost use Rattle.round.specs.Engine.{share_in, row_of, Written, opening_on_words, RecomputedAs, Traced, said_in, word, Simulated};
ghost use Rattle.round.specs.Inner.{Begun, Stepped};
ghost use Rattle.round.specs.Inputs.{input_share, Taped, tapes_of, opening_of};

use bits::{Block, Strip};
use lowmc::Tables;
use sets::Set;

// The first m places of a word.
fn top(x: u64, m: usize) -> u64
    requires { (0 < m) × (m ≤ 63) }
    ensures { word_bits result ≡ up_to m (word_bits x) }
{
    let rest = 64 - m;
    (x >> rest) << rest
}

// The gates of a layer for a party with the state x and the tape's row t, beside the party with y and u.
fn gate_row(p: Set, x: Block, y: Block, t: u64, u: u64) -> u64
    requires { IsSet p }
    ensures { word_bits result ≡ up_to (3 * p.s) (gates (block_bits x) (block_bits y) (word_bits t) (word_bits u)) }
{
    let a = lowmc::left(p, x);
    let b = lowmc::right(p, x);
    let c = lowmc::left(p, y);
    let d = lowmc::right(p, y);
    top((a & d) ^ (c & b) ^ (a & b) ^ t ^ u, 3 * p.s)
}

// The gates of a layer for the three parties.
fn gate_rows(p: Set, s: &[Block; 3], t: [u64; 3]) -> [u64; 3]
    requires { IsSet p }
    ensures { (j : Party) → row_of result j ≡ up_to (3 * p.s) (gates (share_in s.now j) (share_in s.now (next j)) (row_of t j) (row_of t (next j))) }
{
    [
        gate_row(p, s[0], s[1], t[0], t[1]),
        gate_row(p, s[1], s[2], t[1], t[2]),
        gate_row(p, s[2], s[0], t[2], t[0]),
    ]
}

// The public block c for the share that public constants go into, and zero bits for another.
fn public_part(into: bool, c: Block) -> Block
    ensures { block_bits result ≡ cond into (block_bits c) zeros }
{
    if into {
        return c;
    }
    Block::zero()
}

// Such parts of a public block for two shares.
fn public_parts(into: [bool; 2], c: Block) -> [Block; 2]
    ensures { (k : ℕ) → k < 2 → block_bits (at result k) ≡ cond (get_or into k false) (block_bits c) zeros }
{
    [public_part(into[0], c), public_part(into[1], c)]
}

// Two shares of the state before the first round. The matrix is read once for both.
fn start_shares(tables: &Tables, shares: [Block; 2], into: [bool; 2], plain: Block) -> [Block; 2]
    ensures { (k : ℕ) → k < 2 → block_bits (at result k)
        ≡ start (cipher tables.now) (block_bits (at shares k)) (cond (get_or into k false) (block_bits plain) zeros) }
{
    tables.start(shares, public_parts(into, plain))
}

// The layer of S-boxes on two shares, by those parties' rows of gates.
fn substitute(p: Set, x: [Block; 2], g: [u64; 2]) -> [Block; 2]
    requires { IsSet p }
    ensures { (k : ℕ) → k < 2 → block_bits (at result k) ≡ sboxes_by p.s (block_bits (at x k)) (word_bits (get_or g k 0)) }
{
    [
        lowmc::sboxes_by(p, x[0], g[0]),
        lowmc::sboxes_by(p, x[1], g[1]),
    ]
}

// Round i of LowMC on two shares with the states x, by those parties' rows of gates.
fn advance_shares(
    tables: &Tables,
    i: usize,
    shares: [Block; 2],
    into: [bool; 2],
    x: [Block; 2],
    g: [u64; 2],
) -> [Block; 2]
    requires { i < tables.now.set.r }
    ensures { (k : ℕ) → k < 2 → block_bits (at result k) ≡ advance (cipher tables.now) i (block_bits (at shares k))
        (cond (get_or into k false) ((cipher tables.now).roundconstant i) zeros) (block_bits (at x k)) (word_bits (get_or g k 0)) }
{
    let c = public_parts(into, tables.constant(i));
    tables.turn(i, shares, c, substitute(tables.set, x, g))
}

// What a recomputation leaves: the output shares of the two opened parties, and the first one's transcript.
#[derive(Clone, Copy)]
pub struct Again {
    pub first: Block,
    pub second: Block,
    pub said: Strip,
}

// The verifier's recomputation for challenge e: input shares, the rows of the two opened tapes, and the second party's transcript.
pub fn recompute(
    tables: &Tables,
    e: usize,
    share1: Block,
    share2: Block,
    plain: Block,
    tape1: Strip,
    tape2: Strip,
    given: Strip,
) -> Again
    ensures { (j : Party) → e ≡ party_number j → RecomputedAs (cipher tables.now) (block_bits plain) j
        (opening_on_words share1 share2 tape1 tape2 given) result }
{
    let into = [e == 0, e == 2];
    let shares = [share1, share2];
    let mut s = start_shares(tables, shares, into, plain);
    let mut words = [0u64; 40];
    for i in 0..tables.set.r {
        let g = gate_row(tables.set, s[0], s[1], tape1.words[i], tape2.words[i]);
        words[i] = g;
        // Through a name: a proof does not follow an array that a call's answer is assigned to.
        let next = advance_shares(tables, i, shares, into, s, [g, given.words[i]]);
        s = next;
    }
    let [first, second] = s;
    Again {
        first,
        second,
        said: Strip { words },
    }
}

// The encryption of a block under a key with all its states, computed once for all rounds of a signature.
pub fn all_states(tables: &Tables, key: Block, block: Block, states: &mut [Block; 40])
    ensures { Traced (cipher tables.now) (block_bits key) (block_bits block) states.new }
{
    let [mut x] = tables.start([key], [block]);
    states[0] = x;
    for i in 0..tables.set.r {
        x = tables.step(i, key, x);
        states[i + 1] = x;
    }
}

// The states of two parties, and the third's: what they lack of the encryption's.
fn with_third(x: [Block; 2], whole: Block) -> [Block; 3]
    ensures { (share_in result party0 ≡ block_bits (at x 0)) × (share_in result party1 ≡ block_bits (at x 1))
        × (share_in result party2 ≡ block_bits whole ⊕ block_bits (at x 0) ⊕ block_bits (at x 1)) }
{
    let [a, b] = x;
    [a, b, whole.xor(a.xor(b))]
}

// The three states before the first round. The third is what the first two lack of the encryption's: a product less.
fn begin(tables: &Tables, x: &[Block; 3], plain: Block, whole: Block) -> [Block; 3]
    ensures { Begun (cipher tables.now) (block_bits plain) (share_in x.now) (block_bits whole) (share_in result) }
{
    let y = start_shares(tables, [x[0], x[1]], [true, false], plain);
    with_third(y, whole)
}

// Round i for the three: x are the input shares, s the states, g the rows of gates, whole the encryption's state after the round.
fn step(
    tables: &Tables,
    i: usize,
    x: &[Block; 3],
    s: [Block; 3],
    g: [u64; 3],
    whole: Block,
) -> [Block; 3]
    requires { i < tables.now.set.r }
    ensures { Stepped (cipher tables.now) i (share_in x.now) (share_in s) (row_of g) (block_bits whole) (share_in result) }
{
    let y = advance_shares(
        tables,
        i,
        [x[0], x[1]],
        [true, false],
        [s[0], s[1]],
        [g[0], g[1]],
    );
    with_third(y, whole)
}

// Row i of gates, where they begin at bit at of s.
fn row_from(p: Set, s: &[u8], at: usize, i: usize) -> u64
    requires { IsSet p × (at ≤ p.n) × (i < p.r) }
    ensures { word_bits result ≡ cut (3 * p.s) (from at (bits_of s.now)) i }
{
    let m = 3 * p.s;
    bits::read_row(s, at + i * m, m)
}

// Row i of each tape: gates begin at bit n of tapes 0 and 1, at bit 0 of tape 2.
fn rows_at(p: Set, t0: &[u8], t1: &[u8], t2: &[u8], i: usize) -> [u64; 3]
    requires { IsSet p × (i < p.r) }
    ensures { (keys layers constants : Bytes) (j : Party)
        → row_of result j ≡ tapes_of (cipher_of p keys layers constants) t0.now t1.now t2.now j i }
{
    [
        row_from(p, t0, p.n, i),
        row_from(p, t1, p.n, i),
        row_from(p, t2, 0, i),
    ]
}

// What a simulation leaves by party: the output shares and the transcripts.
#[derive(Clone, Copy)]
pub struct View {
    pub out: [Block; 3],
    pub said: [Strip; 3],
}

// The words of three parties put as row i of their transcripts.
fn put_rows(said: &mut [Strip; 3], i: usize, g: [u64; 3])
    requires { i < 40 }
    ensures { (j : Party) → said_in said.new j ≡ set (said_in said.old j) i (word g j) }
{
    said[0].words[i] = g[0];
    said[1].words[i] = g[1];
    said[2].words[i] = g[2];
}

// The signer's simulation: input shares, the tapes, and the states of the encryption under the key that is shared.
pub fn simulate(
    tables: &Tables,
    x: [Block; 3],
    plain: Block,
    t0: &[u8],
    t1: &[u8],
    t2: &[u8],
    states: &[Block; 40],
) -> View
    requires { Traced (cipher tables.now) (xor3 (share_in x)) (block_bits plain) states.now }
    ensures { Simulated (cipher tables.now) (block_bits plain) (share_in x)
        (tapes_of (cipher tables.now) t0.now t1.now t2.now) result }
{
    let mut v = View {
        out: begin(tables, &x, plain, states[0]),
        said: [Strip { words: [0; 40] }; 3],
    };
    for i in 0..tables.set.r {
        let g = gate_rows(tables.set, &v.out, rows_at(tables.set, t0, t1, t2, i));
        put_rows(&mut v.said, i, g);
        v.out = step(tables, i, &x, v.out, g, states[i + 1]);
    }
    v
}

// The rows of gates from bit at of s on.
pub fn rows_from(p: Set, s: &[u8], at: usize) -> Strip
    requires { IsSet p × (at ≤ p.n) }
    ensures { (i : ℕ) → i < p.r → rows_of result.words i ≡ cut (3 * p.s) (from at (bits_of s.now)) i }
{
    Strip::read(s, at, 3 * p.s, p.r)
}

// The rows of the gates of party k on its tape: from bit n on for parties 0 and 1, from bit 0 on for party 2.
pub fn tape_rows(p: Set, k: usize, tape: &[u8]) -> Strip
    requires { IsSet p }
    ensures { (j : Party) → k ≡ party_number j → Taped p j tape.now result.words }
{
    if k == 2 {
        return rows_from(p, tape, 0);
    }
    rows_from(p, tape, p.n)
}

// The share that is the first n bits of a tape.
pub fn tape_share(p: Set, tape: &[u8]) -> Block
    requires { IsSet p × (w p ≤ length tape.now) }
    ensures { block_bits result ≡ up_to p.n (bits_of tape.now) }
{
    let w = p.width();
    Block::load(&tape[0..w])
}

// The input shares of a key: two from the tapes 0 and 1, the third by exclusive or.
pub fn input_shares(p: Set, key: Block, t0: &[u8], t1: &[u8]) -> [Block; 3]
    requires { IsSet p × (w p ≤ length t0.now) × (w p ≤ length t1.now) }
    ensures { (j : Party) → share_in result j ≡ input_share p.n (block_bits key) t0.now t1.now j }
{
    let a = tape_share(p, t0);
    let b = tape_share(p, t1);
    [a, b, key.xor(a.xor(b))]
}

// The transcript t as bytes, with zero bits to the byte.
pub fn write_rows(p: Set, t: Strip, s: &mut [u8])
    requires { IsSet p × (length s.old ≡ transcript_length p) × Rowed (3 * p.s) p.r t.words }
    ensures { (u : Rows) → Written (3 * p.s) p.r u t.words → s.new ≡ bytes_of (3 * p.s * p.r) (flat (3 * p.s) u) }
{
    t.write(3 * p.s, p.r, s);
}

// The verifier's recomputation from the bytes of two tapes and of a transcript; the one above has their rows.
pub fn recompute_tapes(
    tables: &Tables,
    e: usize,
    share1: Block,
    share2: Block,
    plain: Block,
    tape1: &[u8],
    tape2: &[u8],
    given: &[u8],
) -> Again
    requires { e < 3 }
    ensures { (j : Party) → e ≡ party_number j → RecomputedAs (cipher tables.now) (block_bits plain) j
        (opening_of (cipher tables.now) j (block_bits share1) (block_bits share2)
        tape1.now tape2.now given.now) result }
{
    let a = tape_rows(tables.set, e, tape1);
    let b = tape_rows(tables.set, (e + 1) % 3, tape2);
    let c = rows_from(tables.set, given, 0);
    recompute(tables, e, share1, share2, plain, a, b, c)
}
