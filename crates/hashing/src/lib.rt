// What Picnic hashes, over the SHAKE of a set, and the two calls that only hash.
#![tactic(auto)]

ghost use Rattle.std.specs.Prelude.{◌≡◌, [], ◌∷◌, ◌++◌, ◌<◌, length};
ghost use Rattle.sets.specs.Sets.{IsSet};
ghost use Rattle.sets.specs.Lengths.{seeds_length};
ghost use Rattle.answers.specs.Answers.{first, as_answer};
ghost use Rattle.shake.specs.Sponge.{started, absorbed, Taking};
ghost use Rattle.hashing.specs.Hashing.{h, kdf, derived_seeds, tape_input, tape, commitment};
ghost use Rattle.hashing.specs.HashCall.{HashPromise};
ghost use Rattle.hashing.specs.SeedsCall.{seeds_checks, SeedsPromise};

use answers::Refusal;
use sets::Set;
use shake::Sponge;

// The sponge of H_i: the byte i is taken in.
pub fn prefixed(p: Set, i: u8) -> Sponge
    requires { IsSet p }
    ensures { (result ≡ absorbed (started p.rate) (i ∷ [])) × Taking result }
{
    Sponge::new(p.rate).absorb_byte(i)
}

// output filled with the set's SHAKE of input.
pub fn fill(p: Set, input: &[u8], output: &mut [u8])
    requires { IsSet p }
    ensures { output.new ≡ kdf p input.now (length output.old) }
{
    let s = Sponge::new(p.rate).absorb(input).pad();
    s.squeeze(output);
}

// The digest H_i of input fills output.
pub fn digest(p: Set, i: u8, input: &[u8], output: &mut [u8])
    requires { IsSet p × (length output.old ≡ p.digest) }
    ensures { output.new ≡ h p i input.now }
{
    let s = prefixed(p, i).absorb(input).pad();
    s.squeeze(output);
}

// The tape of party j in round t fills output: d is H_2 of the seed.
fn tape_from(p: Set, d: &[u8], salt: &[u8], t: u16, j: u16, output: &mut [u8])
    requires { IsSet p × (length output.old < 65536) }
    ensures { output.new
        ≡ kdf p (tape_input d.now salt.now t j (length output.old)) (length output.old) }
{
    let size = output.len() as u16;
    let s = Sponge::new(p.rate).absorb(d).absorb(salt);
    let u = s.absorb_u16(t).absorb_u16(j).absorb_u16(size).pad();
    u.squeeze(output);
}

// The tape of party j in round t fills output.
pub fn tape(p: Set, seed: &[u8], salt: &[u8], t: u16, j: u16, output: &mut [u8])
    requires { IsSet p × (length output.old < 65536) }
    ensures { output.new ≡ tape p seed.now salt.now t j (length output.old) }
{
    let n = p.digest;
    let mut d = [0u8; 64];
    digest(p, 2, seed, &mut d[..n]);
    tape_from(p, &d[..n], salt, t, j, output);
}

// The digest of a view fills output: d is H_4 of the seed.
fn view_digest(
    p: Set,
    d: &[u8],
    share: &[u8],
    transcript: &[u8],
    output_share: &[u8],
    output: &mut [u8],
)
    requires { IsSet p × (length output.old ≡ p.digest) }
    ensures { output.new ≡ h p 0 (d.now ++ (share.now ++ (transcript.now ++ output_share.now))) }
{
    let s = prefixed(p, 0).absorb(d).absorb(share);
    let u = s.absorb(transcript).absorb(output_share).pad();
    u.squeeze(output);
}

// The commitment to a party's seed, input share, transcript and output share fills output.
pub fn commit(
    p: Set,
    seed: &[u8],
    share: &[u8],
    transcript: &[u8],
    output_share: &[u8],
    output: &mut [u8],
)
    requires { IsSet p × (length output.old ≡ p.digest) }
    ensures { output.new ≡ commitment p seed.now share.now transcript.now output_share.now }
{
    let n = p.digest;
    let mut d = [0u8; 64];
    digest(p, 4, seed, &mut d[..n]);
    view_digest(p, &d[..n], share, transcript, output_share, output);
}

// The derived seeds fill output.
fn derive(p: Set, secret: &[u8], message: &[u8], public: &[u8], output: &mut [u8])
    requires { IsSet p × (length output.old ≡ seeds_length p) }
    ensures { output.new ≡ derived_seeds p secret.now message.now public.now }
{
    let width = p.seed as u16;
    let s = Sponge::new(p.rate).absorb(secret).absorb(message);
    let u = s.absorb(public).absorb_u16(width).pad();
    u.squeeze(output);
}

// The hashing call.
pub fn hash(set: u64, input: &[u8], output: &mut [u8]) -> Result<u32, Refusal>
    ensures { HashPromise set input.now output.old (as_answer result) output.new }
{
    let p = Set::numbered(set).ok_or(Refusal::NoSet)?;
    let n = output.len();
    if answers::HASH_MOST < n {
        return Err(Refusal::Room);
    }
    fill(p, input, output);
    Ok(n as u32)
}

// What the call that derives seeds refuses, by the lengths of its slices.
fn check_seeds(
    p: Set,
    secret: usize,
    public: usize,
    message: usize,
    output: usize,
) -> Result<(), Refusal>
    requires { IsSet p }
    ensures { result ≡ first (seeds_checks p secret public message output) }
{
    if answers::keys_other(p, secret, public) {
        return Err(Refusal::Key);
    }
    if answers::message_out(message) {
        return Err(Refusal::Message);
    }
    if output < p.seeds_length() {
        return Err(Refusal::Room);
    }
    Ok(())
}

// The call that derives seeds.
pub fn seeds(
    set: u64,
    secret: &[u8],
    public: &[u8],
    message: &[u8],
    output: &mut [u8],
) -> Result<u32, Refusal>
    ensures { SeedsPromise set secret.now public.now message.now output.old (as_answer result) output.new }
{
    let p = Set::numbered(set).ok_or(Refusal::NoSet)?;
    check_seeds(p, secret.len(), public.len(), message.len(), output.len())?;
    let n = p.seeds_length();
    derive(p, secret, message, public, &mut output[..n]);
    Ok(n as u32)
}
