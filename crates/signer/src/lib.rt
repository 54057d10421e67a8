// Signing: checks, a pass over the rounds that fills the room, the challenge, and a pass that writes the signature.
// A round is simulated anew for the second pass: nothing larger than its tapes and transcripts is kept. No branch and no index depends on a secret.
#![tactic(auto, using(room::proofs::Fits::fits))]

ghost use Rattle.std.specs.Prelude.{◌≡◌, cond, ℕ, ◌*◌, ◌≤◌, eqb, length, take, replicate};
ghost use Rattle.bits.specs.Bytes.{bits_of, bytes_of};
ghost use Rattle.bits.specs.Words.{block_bits};
ghost use Rattle.bits.specs.Rows.{Rows, flat, Rowed};
ghost use Rattle.sets.specs.Sets.{IsSet, numbered};
ghost use Rattle.sets.specs.Lengths.{w, transcript_length, public_length, room_length, longest};
ghost use Rattle.answers.specs.Answers.{first, as_answer};
ghost use Rattle.circuit.specs.Round.{Party, party2};
ghost use Rattle.lowmc.specs.Cipher.{cipher};
ghost use Rattle.lowmc.specs.Encrypted.{plaintext};
ghost use Rattle.round.specs.Engine.{share_in, said, Traced, Written};
ghost use Rattle.hashing.specs.Hashing.{h, commitment};
ghost use Rattle.challenge.specs.Filling.{Fills};
ghost use Rattle.views.specs.Signed.{salt_at};
ghost use Rattle.views.specs.Input.{challenge_input};
ghost use Rattle.signer.specs.Played.{said_by};
ghost use Rattle.signer.specs.Sign.{Signed, length_checks};
ghost use Rattle.signer.specs.Making.{handed_in};
ghost use Rattle.signer.specs.Finished.{Finished};

mod signing;

use answers::Refusal;
use bits::Block;
use lowmc::Tables;
use round::View;
use sets::Set;
use signing::Signing;

// What the signer has of a round, by party. Transcripts are bytes, each at the start of an array.
#[derive(Clone, Copy)]
pub struct Played {
    pub inputs: [Block; 3],
    pub outputs: [Block; 3],
    pub said: [[u8; 143]; 3],
}

// Checks 2 to 6.
fn check_lengths(
    p: Set,
    keys: usize,
    layers: usize,
    constants: usize,
    secret: usize,
    public: usize,
    message: usize,
    limit: u64,
    seeds: usize,
    room: usize,
    output: usize,
) -> Result<(), Refusal>
    requires { IsSet p }
    ensures { result ≡ first (length_checks p keys layers constants secret public message limit seeds room output) }
{
    if answers::tables_other(p, keys, layers, constants) {
        return Err(Refusal::Table);
    }
    if answers::keys_other(p, secret, public) {
        return Err(Refusal::Key);
    }
    if answers::message_out(message) {
        return Err(Refusal::Message);
    }
    if answers::limit_out(limit) {
        return Err(Refusal::Limit);
    }
    if seeds != p.seeds_length() {
        return Err(Refusal::Room);
    }
    if room < p.room_length() {
        return Err(Refusal::Room);
    }
    if output < p.longest() {
        return Err(Refusal::Room);
    }
    Ok(())
}

// What the signer has of a round that was simulated from these input shares.
fn in_bytes(p: Set, inputs: [Block; 3], v: &View) -> Played
    requires { IsSet p × ((j : Party) → Rowed (3 * p.s) p.r (said v.now j)) }
    ensures { (result.inputs ≡ inputs) × (result.outputs ≡ v.now.out)
        × ((j : Party) (u : Rows) → Written (3 * p.s) p.r u (said v.now j) → take (transcript_length p) (said_by result j) ≡ bytes_of (3 * p.s * p.r) (flat (3 * p.s) u)) }
{
    let mut x = Played {
        inputs,
        outputs: v.out,
        said: [[0; 143]; 3],
    };
    x.said[0] = room::transcribed(p, v.said[0]);
    x.said[1] = room::transcribed(p, v.said[1]);
    x.said[2] = room::transcribed(p, v.said[2]);
    x
}

// The commitment to a seed and what a party had, at the start of an array.
fn commit_party(p: Set, seed: &[u8], share: Block, said: [u8; 143], output_share: Block) -> [u8; 64]
    requires { IsSet p }
    ensures { take p.digest result
        ≡ commitment p seed.now (bytes_of p.n (block_bits share)) (take (transcript_length p) said) (bytes_of p.n (block_bits output_share)) }
{
    let w = p.width();
    let m = p.transcript();
    let x = room::stored(p, share);
    room::committed_block(p, seed, &x[..w], &said[..m], output_share)
}

// The share that is shown for e, at the start of an array: that of party 2, or zeros where e is 0.
fn shown_share(p: Set, e: u8, x: [Block; 3]) -> [u8; 32]
    requires { IsSet p }
    ensures { take (w p) result ≡ cond (eqb e 0) (replicate (w p) 0) (bytes_of p.n (share_in x party2)) }
{
    if e == 0 {
        return [0u8; 32];
    }
    room::stored(p, x[2])
}

// The encryption of the plaintext under the secret key, with all its states.
fn traced(tables: &Tables, secret: &[u8], public: &[u8], states: &mut [Block; 40])
    requires { (length secret.now ≡ w tables.now.set) × (length public.now ≡ public_length tables.now.set) }
    ensures { Traced (cipher tables.now) (bits_of secret.now) (bits_of (plaintext tables.now.set public.now)) states.new }
{
    let w = tables.set.width();
    let key = Block::load(secret);
    let block = Block::load(&public[w..]);
    round::all_states(tables, key, block, states);
}

// The challenge of the room that is filled: its values at the start of an array; refused if they are too few.
fn challenged(
    signing: &Signing,
    message: &[u8],
    limit: u64,
    room: &[u8],
    values: &mut [u8],
) -> Result<(), Refusal>
    requires { (room_length signing.now.tables.set ≤ length room.now) × (signing.now.tables.set.t ≤ length values.old) }
    ensures { Fills signing.now.tables.set
        (h signing.now.tables.set 1
        (challenge_input (take (room_length signing.now.tables.set) room.now) (salt_at signing.now.tables.set signing.now.seeds.now)
        signing.now.public.now message.now))
        limit values.old result values.new }
{
    let p = signing.tables.set;
    let n = p.room_length();
    room::challenge(
        p,
        &room[..n],
        signing.salt(),
        signing.public,
        message,
        limit,
        values,
    )
}

// Both passes and the challenge between them. The room is cleared before the output is touched.
fn sign_ready(
    signing: &Signing,
    message: &[u8],
    limit: u64,
    room: &mut [u8],
    output: &mut [u8],
) -> Result<u32, Refusal>
    requires { (room_length signing.now.tables.set ≤ length room.old) × (longest signing.now.tables.set ≤ length output.old) }
    ensures { (set : ℕ)
        → Finished signing.now.tables.set (handed_in set signing.now message.now limit room.old output.old) (as_answer result) room.new output.new }
{
    let t = signing.tables.set.t;
    let needed = signing.tables.set.room_length();
    signing.fill(room);
    let mut values = [0u8; 438];
    let drawn = challenged(signing, message, limit, room, &mut values);
    slices::clear(room, needed);
    drawn?;
    Ok(signing.write(&values[..t], output) as u32)
}

// The call that signs: checks 1 to 7 in their order, and then the signature.
pub fn sign(
    set: u64,
    keys: &[u8],
    layers: &[u8],
    constants: &[u8],
    secret: &[u8],
    public: &[u8],
    message: &[u8],
    limit: u64,
    seeds: &[u8],
    room: &mut [u8],
    output: &mut [u8],
) -> Result<u32, Refusal>
    ensures { Signed
        (record {
          set_number = set;
          keys = keys.now;
          layers = layers.now;
          constants = constants.now;
          secret = secret.now;
          public = public.now;
          message = message.now;
          limit = limit;
          seeds = seeds.now;
          room = room.old;
          output = output.old;
        })
        (as_answer result) room.new output.new }
{
    let p = Set::numbered(set).ok_or(Refusal::NoSet)?;
    check_lengths(
        p,
        keys.len(),
        layers.len(),
        constants.len(),
        secret.len(),
        public.len(),
        message.len(),
        limit,
        seeds.len(),
        room.len(),
        output.len(),
    )?;
    let tables = Tables {
        set: p,
        keys,
        layers,
        constants,
    };
    let mut states = [Block::zero(); 40];
    traced(&tables, secret, public, &mut states);
    let signing = Signing {
        tables,
        secret,
        public,
        seeds,
        states: &states,
    };
    if !signing.paired() {
        return Err(Refusal::Pair);
    }
    sign_ready(&signing, message, limit, room, output)
}
