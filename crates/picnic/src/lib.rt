// The calls that hosts make: numbers and byte slices in, one 64-bit number out. Each forwards to the crate that has its code and
// proof, and turns what that answers, a Result, into the number.
// C calls them through `picnic_c`.
#![tactic(auto)]

ghost use Rattle.hashing.specs.HashCall.{HashPromise};
ghost use Rattle.hashing.specs.SeedsCall.{SeedsPromise};
ghost use Rattle.challenge.specs.ChallengeCall.{ChallengePromise};
ghost use Rattle.signer.specs.Sign.{Signed};
ghost use Rattle.verifier.specs.Verify.{Verified};
ghost use Rattle.lowmc.specs.Calls.{EncryptPromise, PublicKeyPromise};
ghost use Rattle.shape.specs.Reading.{ReadPromise, WritePromise};

use answers::answer;

// Fills output with the SHAKE of the set, of input.
pub fn picnic_hash(set: u64, input: &[u8], output: &mut [u8]) -> u64
    ensures { HashPromise set input.now output.old result output.new }
{
    answer(hashing::hash(set, input, output))
}

// Fills the start of output with the seeds derived from a secret key, a message and a public key.
pub fn picnic_seeds(
    set: u64,
    secret: &[u8],
    public: &[u8],
    message: &[u8],
    output: &mut [u8],
) -> u64
    ensures { SeedsPromise set secret.now public.now message.now output.old result output.new }
{
    answer(hashing::seeds(set, secret, public, message, output))
}

// The encryption of a block under a secret key, at the start of output.
pub fn picnic_encrypt(
    set: u64,
    keys: &[u8],
    layers: &[u8],
    constants: &[u8],
    secret: &[u8],
    block: &[u8],
    output: &mut [u8],
) -> u64
    ensures { EncryptPromise set keys.now layers.now constants.now secret.now block.now output.old result output.new }
{
    answer(lowmc::encrypt_call(set, keys, layers, constants, secret, block, output))
}

// The public key of a secret key and a plaintext block, at the start of output.
pub fn picnic_public_key(
    set: u64,
    keys: &[u8],
    layers: &[u8],
    constants: &[u8],
    secret: &[u8],
    block: &[u8],
    output: &mut [u8],
) -> u64
    ensures { PublicKeyPromise set keys.now layers.now constants.now secret.now block.now output.old result output.new }
{
    answer(lowmc::public_key_call(set, keys, layers, constants, secret, block, output))
}

// The T values of a challenge from at most limit blocks, one a byte, at the start of output.
pub fn picnic_challenge(set: u64, input: &[u8], limit: u64, output: &mut [u8]) -> u64
    ensures { ChallengePromise set input.now limit output.old result output.new }
{
    answer(challenge::challenge(set, input, limit, output))
}

// A signature into its unpacked form, at the start of output.
pub fn picnic_read(set: u64, signature: &[u8], output: &mut [u8]) -> u64
    ensures { ReadPromise set signature.now output.old result output.new }
{
    answer(signature::read(set, signature, output))
}

// An unpacked form into its signature, at the start of output.
pub fn picnic_write(set: u64, unpacked: &[u8], output: &mut [u8]) -> u64
    ensures { WritePromise set unpacked.now output.old result output.new }
{
    answer(signature::write(set, unpacked, output))
}

// Signs message: the signature at the start of output. The room's needed bytes are set to zero once the first seven checks pass.
pub fn picnic_sign(
    set: u64,
    keys: &[u8],
    layers: &[u8],
    constants: &[u8],
    secret: &[u8],
    public: &[u8],
    message: &[u8],
    limit: u64,
    seeds: &[u8],
    room: &mut [u8],
    output: &mut [u8],
) -> u64
    ensures { Signed
        (record {
          set_number = set;
          keys = keys.now;
          layers = layers.now;
          constants = constants.now;
          secret = secret.now;
          public = public.now;
          message = message.now;
          limit = limit;
          seeds = seeds.now;
          room = room.old;
          output = output.old;
        })
        result room.new output.new }
{
    answer(signer::sign(
        set, keys, layers, constants, secret, public, message, limit, seeds, room, output,
    ))
}

// Verifies the signature of message: 0 if it is valid. The room's needed bytes are set to zero once the signature is read.
pub fn picnic_verify(
    set: u64,
    keys: &[u8],
    layers: &[u8],
    constants: &[u8],
    public: &[u8],
    message: &[u8],
    limit: u64,
    room: &mut [u8],
    signature: &[u8],
) -> u64
    ensures { Verified
        (record {
          set_number = set;
          keys = keys.now;
          layers = layers.now;
          constants = constants.now;
          public = public.now;
          message = message.now;
          limit = limit;
          room = room.old;
          signature = signature.now;
        })
        result room.new }
{
    let verdict = verifier::verify(
        set, keys, layers, constants, public, message, limit, room, signature,
    );
    answer(verdict.and(Ok(0)))
}
