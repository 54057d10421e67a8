// Verifying: checks, the rounds recomputed into the room, the challenge, and the verdict.
#![tactic(auto, using(room::proofs::Fits::fits))]

ghost use Rattle.std.specs.Prelude.{◌≡◌, ◌+◌, ◌*◌, ◌≤◌, ◌<◌, length, take};
ghost use Rattle.slices.specs.Slices.{Bytes, put};
ghost use Rattle.bits.specs.Bits.{◌⊕◌};
ghost use Rattle.bits.specs.Bytes.{bits_of, bytes_of};
ghost use Rattle.bits.specs.Words.{block_bits};
ghost use Rattle.bits.specs.Rows.{Rows, flat, Rowed};
ghost use Rattle.sets.specs.Sets.{IsSet, numbered};
ghost use Rattle.sets.specs.Lengths.{w, public_length, room_length};
ghost use Rattle.answers.specs.Answers.{first, answer};
ghost use Rattle.circuit.specs.Round.{Party, next};
ghost use Rattle.circuit.specs.Tapes.{party_number};
ghost use Rattle.lowmc.specs.Lent.{cipher_of};
ghost use Rattle.lowmc.specs.Cipher.{cipher};
ghost use Rattle.lowmc.specs.Encrypted.{ciphertext, plaintext};
ghost use Rattle.round.specs.Engine.{RecomputedAs, Written};
ghost use Rattle.round.specs.Inputs.{opening_of};
ghost use Rattle.hashing.specs.Hashing.{commitment};
ghost use Rattle.parts.specs.Places.{shown_by};
ghost use Rattle.views.specs.Parties.{party_of, from_party, three};
ghost use Rattle.views.specs.Signed.{tape_of};
ghost use Rattle.views.specs.Opened.{opened_share, recomputed_outputs, recomputed_commitments};
ghost use Rattle.room.specs.Room.{shares_at, commitments_at, with_round};
ghost use Rattle.verifier.specs.Opened.{OpenedAs};
ghost use Rattle.verifier.specs.Verify.{Verified, length_checks};

mod verifying;

use answers::Refusal;
use bits::Block;
use lowmc::Tables;
use parts::Shown;
use round::Again;
use sets::Set;
use verifying::Verifying;

// What is opened of a round: the input shares of two parties, each at the start of an array, and what is recomputed.
#[derive(Clone, Copy)]
pub struct Opened {
    pub share1: [u8; 32],
    pub share2: [u8; 32],
    pub again: Again,
}

// The input share of opened party j, at the start of an array: of parties 0 and 1 from the tape, of party 2 as it is given.
fn opened_share(p: Set, j: usize, tape: &[u8], given: &[u8]) -> [u8; 32]
    requires { IsSet p × (w p ≤ length tape.now) × (length given.now ≤ 32) × (j ≡ 2 → length given.now ≡ w p) }
    ensures { (keys layers constants : Bytes) (k : Party) → j ≡ party_number k
        → take (w p) result ≡ opened_share (cipher_of p keys layers constants) k tape.now given.now }
{
    if j == 2 {
        let mut s = [0u8; 32];
        slices::copy(given, &mut s);
        return s;
    }
    room::stored(p, round::tape_share(p, tape))
}

// Two parties recomputed from their input shares, tapes and the second's transcript.
fn recompute(
    tables: &Tables,
    block: &[u8],
    e: usize,
    share1: &[u8],
    share2: &[u8],
    tape1: &[u8],
    tape2: &[u8],
    transcript: &[u8],
) -> Again
    requires { (e < 3)
        × (length block.now ≤ 32) × (length share1.now ≤ 32) × (length share2.now ≤ 32) }
    ensures { (j : Party) → e ≡ party_number j
        → RecomputedAs (cipher tables.now) (bits_of block.now) j
        (opening_of (cipher tables.now) j (bits_of share1.now) (bits_of share2.now)
        tape1.now tape2.now transcript.now) result }
{
    let x = Block::load(share1);
    let y = Block::load(share2);
    let plain = Block::load(block);
    round::recompute_tapes(tables, e, x, y, plain, tape1, tape2, transcript)
}

// A round opened for challenge e over its two tapes.
fn open_tapes(
    tables: &Tables,
    block: &[u8],
    e: usize,
    tape1: &[u8],
    tape2: &[u8],
    share: &[u8],
    transcript: &[u8],
) -> Opened
    requires { (e < 3) × (length block.now ≤ 32)
        × (w tables.now.set ≤ length tape1.now) × (w tables.now.set ≤ length tape2.now)
        × (length share.now ≤ 32) × ((e ≡ 0 → ⊥) → length share.now ≡ w tables.now.set) }
    ensures { (j : Party) → e ≡ party_number j
        → OpenedAs (cipher tables.now) j
        tape1.now tape2.now share.now transcript.now block.now result }
{
    let p = tables.set;
    let w = p.width();
    let share1 = opened_share(p, e, tape1, share);
    let share2 = opened_share(p, (e + 1) % 3, tape2, share);
    let again = recompute(
        tables,
        block,
        e,
        &share1[..w],
        &share2[..w],
        tape1,
        tape2,
        transcript,
    );
    Opened {
        share1,
        share2,
        again,
    }
}

// A round opened for challenge e, from the parts that a signature shows.
fn open(tables: &Tables, block: &[u8], salt: &[u8], t: usize, e: usize, shown: &Shown) -> Opened
    requires { (t < 65536) × (e < 3) × (length block.now ≤ 32)
        × (length shown.now.share.now ≤ 32) × ((e ≡ 0 → ⊥) → length shown.now.share.now ≡ w tables.now.set) }
    ensures { (j : Party) → e ≡ party_number j
        → OpenedAs (cipher tables.now) j
        (tape_of tables.now.set (cipher tables.now) salt.now t j shown.now.seed1.now)
        (tape_of tables.now.set (cipher tables.now) salt.now t (next j) shown.now.seed2.now)
        shown.now.share.now shown.now.transcript.now block.now result }
{
    let p = tables.set;
    let k = (e + 1) % 3;
    let m = room::tape_length(p, e);
    let n = room::tape_length(p, k);
    let tape1 = room::party_tape(p, shown.seed1, salt, t, e);
    let tape2 = room::party_tape(p, shown.seed2, salt, t, k);
    open_tapes(
        tables,
        block,
        e,
        &tape1[..m],
        &tape2[..n],
        shown.share,
        shown.transcript,
    )
}

// The output shares of round t in the room: two recomputed, and the third from them and C.
fn put_outputs(p: Set, t: usize, e: u8, again: Again, cipher: &[u8], room: &mut [u8])
    requires { IsSet p × (t < p.t) × (room_length p ≤ length room.old) × (length cipher.now ≤ 32) }
    ensures { room.new ≡ put room.old (shares_at p t)
        (three (from_party (party_of e) (bytes_of p.n (block_bits again.first)) (bytes_of p.n (block_bits again.second))
        (bytes_of p.n (block_bits again.first ⊕ block_bits again.second ⊕ bits_of cipher.now)))) }
{
    let x = again.first;
    let y = again.second;
    let c = Block::load(cipher);
    let z = x.xor(y.xor(c));
    room::put_outputs(p, t, e, x, y, z, room);
}

// The commitment of party e, whose transcript is recomputed, at the start of an array.
fn commit_first(p: Set, seed: &[u8], share: &[u8], again: Again) -> [u8; 64]
    requires { IsSet p × Rowed (3 * p.s) p.r again.said.words }
    ensures { (u : Rows) → Written (3 * p.s) p.r u again.said.words
        → take p.digest result
        ≡ commitment p seed.now share.now (bytes_of (3 * p.s * p.r) (flat (3 * p.s) u)) (bytes_of p.n (block_bits again.first)) }
{
    let m = p.transcript();
    let s = room::transcribed(p, again.said);
    room::committed_block(p, seed, share, &s[..m], again.first)
}

// The commitments of round t in the room: two recomputed, and the third from the signature.
fn put_commitments(p: Set, t: usize, e: u8, x: Opened, shown: &Shown, room: &mut [u8])
    requires { IsSet p × (t < p.t) × (room_length p ≤ length room.old) × (length shown.now.commitment.now ≡ p.digest)
        × Rowed (3 * p.s) p.r x.again.said.words }
    ensures { (u : Rows) → Written (3 * p.s) p.r u x.again.said.words
        → room.new ≡ put room.old (commitments_at p t)
        (three (from_party (party_of e)
        (commitment p shown.now.seed1.now (take (w p) x.share1) (bytes_of (3 * p.s * p.r) (flat (3 * p.s) u)) (bytes_of p.n (block_bits x.again.first)))
        (commitment p shown.now.seed2.now (take (w p) x.share2) shown.now.transcript.now (bytes_of p.n (block_bits x.again.second)))
        shown.now.commitment.now)) }
{
    let w = p.width();
    let n = p.digest;
    let again = x.again;
    let share1 = x.share1;
    let share2 = x.share2;
    let a = commit_first(p, shown.seed1, &share1[..w], again);
    let b = room::committed_block(p, shown.seed2, &share2[..w], shown.transcript, again.second);
    room::put_commitments(p, t, e, &a[..n], &b[..n], shown.commitment, room);
}

// Round t recomputed from the parts that a signature shows for the value e: output shares and commitments go into the room.
fn fill_round(
    tables: &Tables,
    public: &[u8],
    salt: &[u8],
    t: usize,
    e: u8,
    shown: &Shown,
    room: &mut [u8],
)
    requires { (length public.now ≡ public_length tables.now.set) × (t < tables.now.set.t) × (e < 3)
        × (length shown.now.commitment.now ≡ tables.now.set.digest)
        × (length shown.now.share.now ≤ 32) × ((e ≡ 0 → ⊥) → length shown.now.share.now ≡ w tables.now.set)
        × (room_length tables.now.set ≤ length room.old) }
    ensures { room.new
        ≡ with_round tables.now.set t
        (three (recomputed_outputs tables.now.set (cipher tables.now) salt.now t (party_of e) (shown_by shown.now)
        (plaintext tables.now.set public.now) (ciphertext tables.now.set public.now)))
        (three (recomputed_commitments tables.now.set (cipher tables.now) salt.now t (party_of e) (shown_by shown.now)
        (plaintext tables.now.set public.now) (ciphertext tables.now.set public.now)))
        room.old }
{
    let p = tables.set;
    let w = p.width();
    let x = open(tables, &public[w..], salt, t, usize::from(e), shown);
    put_outputs(p, t, e, x.again, &public[..w], room);
    put_commitments(p, t, e, x, shown, room);
}

// Checks 2 to 6.
fn check_lengths(
    p: Set,
    keys: usize,
    layers: usize,
    constants: usize,
    public: usize,
    message: usize,
    limit: u64,
    room: usize,
) -> Result<(), Refusal>
    requires { IsSet p }
    ensures { result ≡ first (length_checks p keys layers constants public message limit room) }
{
    if answers::tables_other(p, keys, layers, constants) {
        return Err(Refusal::Table);
    }
    if public != p.public_length() {
        return Err(Refusal::Key);
    }
    if answers::message_out(message) {
        return Err(Refusal::Message);
    }
    if answers::limit_out(limit) {
        return Err(Refusal::Limit);
    }
    if room < p.room_length() {
        return Err(Refusal::Room);
    }
    Ok(())
}

// The verifying call.
pub fn verify<'a>(
    set: u64,
    keys: &'a [u8],
    layers: &'a [u8],
    constants: &'a [u8],
    public: &'a [u8],
    message: &[u8],
    limit: u64,
    room: &mut [u8],
    signature: &'a [u8],
) -> Result<(), Refusal>
    ensures { Verified
        (record {
          set_number = set;
          keys = keys.now;
          layers = layers.now;
          constants = constants.now;
          public = public.now;
          message = message.now;
          limit = limit;
          room = room.old;
          signature = signature.now;
        })
        (answer result 0) room.new }
{
    let p = Set::numbered(set).ok_or(Refusal::NoSet)?;
    check_lengths(
        p,
        keys.len(),
        layers.len(),
        constants.len(),
        public.len(),
        message.len(),
        limit,
        room.len(),
    )?;
    parts::check(p, signature)?;
    let tables = Tables {
        set: p,
        keys,
        layers,
        constants,
    };
    let verifying = Verifying {
        tables,
        public,
        signature,
    };
    verifying.verdict(message, limit, room)
}
