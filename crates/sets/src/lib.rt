// The parameter sets: the numbers of a set belong to the set and are asked of it by name.
#![tactic(auto)]

ghost use Rattle.std.specs.Prelude.{◌≡◌};
ghost use Rattle.sets.specs.Sets.{l1, l3, l5, IsSet, numbered};
ghost use Rattle.sets.specs.Lengths.{w, seed_width, transcript_length, header_length, keys_length, layers_length, constants_length, public_length, seeds_length, room_length, round_least, round_most, longest, unpacked_length};

#[derive(Clone, Copy)]
pub struct Set {
    // Bits of a block of LowMC.
    pub n: usize,
    // Bits of a seed.
    pub seed: usize,
    // S-boxes in a layer.
    pub s: usize,
    // Rounds of LowMC.
    pub r: usize,
    // Rounds of a signature, T.
    pub t: usize,
    // Rate of the set's SHAKE: 168 bytes for SHAKE128, 136 for SHAKE256.
    pub rate: usize,
    // Bytes of a digest.
    pub digest: usize,
}

impl Set {
    pub const L1: Set = Set {
        n: 128,
        seed: 128,
        s: 10,
        r: 20,
        t: 219,
        rate: 168,
        digest: 32,
    };

    pub const L3: Set = Set {
        n: 192,
        seed: 192,
        s: 10,
        r: 30,
        t: 329,
        rate: 136,
        digest: 48,
    };

    pub const L5: Set = Set {
        n: 256,
        seed: 256,
        s: 10,
        r: 38,
        t: 438,
        rate: 136,
        digest: 64,
    };

    // Bytes of a salt.
    pub const SALT: usize = 32;

    pub fn picnic_l1_fs() -> Self
        ensures { result ≡ l1 }
    {
        Set::L1
    }

    pub fn picnic_l3_fs() -> Self
        ensures { result ≡ l3 }
    {
        Set::L3
    }

    pub fn picnic_l5_fs() -> Self
        ensures { result ≡ l5 }
    {
        Set::L5
    }

    // The set of a number, if it names one.
    pub fn numbered(k: u64) -> Option<Set>
        ensures { result ≡ numbered k }
    {
        match k {
            1 => Some(Set::picnic_l1_fs()),
            2 => Some(Set::picnic_l3_fs()),
            3 => Some(Set::picnic_l5_fs()),
            _ => None,
        }
    }

    pub fn width(self) -> usize
        requires { IsSet self }
        ensures { result ≡ w self }
    {
        self.n.div_ceil(8)
    }

    pub fn seed_width(self) -> usize
        requires { IsSet self }
        ensures { result ≡ seed_width self }
    {
        self.seed.div_ceil(8)
    }

    pub fn transcript(self) -> usize
        requires { IsSet self }
        ensures { result ≡ transcript_length self }
    {
        (3 * self.s * self.r).div_ceil(8)
    }

    pub fn header(self) -> usize
        requires { IsSet self }
        ensures { result ≡ header_length self }
    {
        (2 * self.t).div_ceil(8)
    }

    pub fn keys_length(self) -> usize
        requires { IsSet self }
        ensures { result ≡ keys_length self }
    {
        (self.r + 1) * self.n * self.width()
    }

    pub fn layers_length(self) -> usize
        requires { IsSet self }
        ensures { result ≡ layers_length self }
    {
        self.r * self.n * self.width()
    }

    pub fn constants_length(self) -> usize
        requires { IsSet self }
        ensures { result ≡ constants_length self }
    {
        self.r * self.width()
    }

    pub fn public_length(self) -> usize
        requires { IsSet self }
        ensures { result ≡ public_length self }
    {
        2 * self.width()
    }

    pub fn seeds_length(self) -> usize
        requires { IsSet self }
        ensures { result ≡ seeds_length self }
    {
        3 * self.t * self.seed_width() + Set::SALT
    }

    pub fn room_length(self) -> usize
        requires { IsSet self }
        ensures { result ≡ room_length self }
    {
        9 * self.t * self.width()
    }

    // A round of a signature without an input share.
    pub fn round_least(self) -> usize
        requires { IsSet self }
        ensures { result ≡ round_least self }
    {
        self.digest + self.transcript() + 2 * self.seed_width()
    }

    // A round of a signature with one.
    pub fn round_most(self) -> usize
        requires { IsSet self }
        ensures { result ≡ round_most self }
    {
        self.round_least() + self.width()
    }

    pub fn longest(self) -> usize
        requires { IsSet self }
        ensures { result ≡ longest self }
    {
        self.header() + Set::SALT + self.t * self.round_most()
    }

    pub fn unpacked_length(self) -> usize
        requires { IsSet self }
        ensures { result ≡ unpacked_length self }
    {
        self.t + Set::SALT + self.t * self.round_most()
    }
}
