// What a host gets back: refusals and their numbers, the answer of a call, and the conditions that several calls check.
#![tactic(auto)]

ghost use Rattle.std.specs.Prelude.{◌≡◌, Err};
ghost use Rattle.sets.specs.Sets.{IsSet};
ghost use Rattle.answers.specs.Answers.{number, answer, as_answer};
ghost use Rattle.answers.specs.Conditions.{tables_other, blocks_other, keys_other, message_out, limit_out};

use sets::Set;

// Why a call refuses, with 01's number of each case.
#[derive(Clone, Copy, Debug, PartialEq, Eq)]
pub enum Refusal {
    // The set is not 1, 2 or 3.
    NoSet = 1,
    // A table has another length.
    Table = 2,
    // A key or block has another length.
    Key = 3,
    // The message is empty or too long.
    Message = 4,
    // The block limit is 0 or above 64.
    Limit = 5,
    // Room or an output is too short, or seeds or a hash's output have a wrong length.
    Room = 6,
    // LowMC of p under the secret key is not C.
    Pair = 7,
    // Fewer than T values in the allowed blocks.
    Blocks = 8,
    // The length of a signature or an unpacked form is wrong.
    Length = 9,
    // A header pair or header padding, or an unpacked value, is none.
    Header = 10,
    // Padding of a transcript, or a share beside value 0, is not zero.
    Padding = 11,
    // The recomputed challenge differs.
    Differs = 12,
}

// The longest message.
pub const MESSAGE_MOST: usize = 1_048_576;

// The longest output of a hash.
pub const HASH_MOST: usize = 1_048_576;

// The largest block limit.
pub const LIMIT_MOST: u64 = 64;

impl From<Refusal> for u64 {
    ghost from_gives = { λ refusal n. n ≡ number refusal };

    // 01's number of a refusal.
    fn from(refusal: Refusal) -> u64 {
        refusal as u64
    }
}

impl Refusal {
    // A refusal's number above 32 bits that hold a length.
    pub fn answer(self, length: u32) -> u64
        ensures { result ≡ answer (Err self) length }
    {
        u64::from(self) * 0x1_0000_0000 + u64::from(length)
    }
}

// What a host gets back of a call: the number of a refusal above 32 zero bits, or how many bytes were written.
pub fn answer(outcome: Result<u32, Refusal>) -> u64
    ensures { result ≡ as_answer outcome }
{
    match outcome {
        Ok(length) => u64::from(length),
        Err(refusal) => refusal.answer(0),
    }
}

// 2: a table has another length.
pub fn tables_other(p: Set, keys: usize, layers: usize, constants: usize) -> bool
    requires { IsSet p }
    ensures { result ≡ tables_other p keys layers constants }
{
    if keys != p.keys_length() {
        return true;
    }
    if layers != p.layers_length() {
        return true;
    }
    constants != p.constants_length()
}

// 3: a key or block has another length.
pub fn blocks_other(p: Set, secret: usize, block: usize) -> bool
    requires { IsSet p }
    ensures { result ≡ blocks_other p secret block }
{
    if secret != p.width() {
        return true;
    }
    block != p.width()
}

// 3: a key has another length.
pub fn keys_other(p: Set, secret: usize, public: usize) -> bool
    requires { IsSet p }
    ensures { result ≡ keys_other p secret public }
{
    if secret != p.width() {
        return true;
    }
    public != p.public_length()
}

// 4: message empty or over 1,048,576 bytes.
pub fn message_out(message: usize) -> bool
    ensures { result ≡ message_out message }
{
    if message == 0 {
        return true;
    }
    MESSAGE_MOST < message
}

// 5: block limit 0 or above 64.
pub fn limit_out(limit: u64) -> bool
    ensures { result ≡ limit_out limit }
{
    if limit == 0 {
        return true;
    }
    LIMIT_MOST < limit
}
