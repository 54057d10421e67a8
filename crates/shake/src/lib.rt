// SHAKE128 and SHAKE256: the sponge over Keccak-f[1600] as a value. Absorb, pad and squeeze each hand back the next sponge.
#![tactic(auto)]

mod state;

ghost use Rattle.std.specs.Prelude.{◌≡◌, [], ◌∷◌, ◌/◌, ◌%◌, ◌<◌, length};
ghost use Rattle.shake.specs.Sponge.{started, absorbed, padded, ready, given, squeezed, Rate, Taking, Giving};

// The state, the place in its block, and the length of a block in bytes. One struct for a sponge that takes in and for one that gives,
// with methods that hand back the next, as 01 names the form; contracts tell the two apart.
#[derive(Clone, Copy)]
pub struct Sponge {
    lanes: [u64; 25],
    at: usize,
    rate: usize,
}

impl Sponge {
    // Nothing taken in. SHAKE128 has the rate 168, SHAKE256 the rate 136.
    #[tactic(auto, unfolding(crate::specs::Sponge::started))]
    pub fn new(rate: usize) -> Self
        requires { Rate rate }
        ensures { (result ≡ started rate) × Taking result }
    {
        Self {
            lanes: [0; 25],
            at: 0,
            rate,
        }
    }

    // The bytes of s are taken in. Each block that gets full is permuted.
    pub fn absorb(mut self, s: &[u8]) -> Self
        requires { Taking self }
        ensures { (result ≡ absorbed self s.now) × Taking result }
    {
        let mut left = s;
        while let Some((block, rest)) = left.split_at_checked(self.rate - self.at) {
            state::add_part(&mut self.lanes, self.at, block);
            keccak::permute(&mut self.lanes);
            self.at = 0;
            left = rest;
        }
        state::add_part(&mut self.lanes, self.at, left);
        self.at += left.len();
        self
    }

    // One byte is taken in. Not by absorb, which takes longer for so few bytes.
    #[tactic(auto, unfolding(crate::specs::Sponge::absorbed, crate::specs::Sponge::absorbed_byte))]
    pub fn absorb_byte(mut self, b: u8) -> Self
        requires { Taking self }
        ensures { (result ≡ absorbed self (b ∷ [])) × Taking result }
    {
        state::add_byte(&mut self.lanes, self.at, b);
        self.at += 1;
        if self.at == self.rate {
            keccak::permute(&mut self.lanes);
            self.at = 0;
        }
        self
    }

    // Two bytes are taken in: x, the low one first.
    pub fn absorb_u16(self, x: u16) -> Self
        requires { Taking self }
        ensures { (result ≡ absorbed self (x % 256 ∷ x / 256 ∷ [])) × Taking result }
    {
        let [low, high] = x.to_le_bytes();
        self.absorb_byte(low).absorb_byte(high)
    }

    // The message is ended: here the suffix and the first bit of the padding, its last bit at the end of the block.
    #[tactic(auto, unfolding(crate::specs::Sponge::padded))]
    pub fn pad(mut self) -> Self
        requires { Taking self }
        ensures { (result ≡ padded self) × Giving result }
    {
        state::add_byte(&mut self.lanes, self.at, 0x1F);
        state::add_byte(&mut self.lanes, self.rate - 1, 0x80);
        keccak::permute(&mut self.lanes);
        self.at = 0;
        self
    }

    // There is a byte to give: where the block is spent, the next one is made.
    #[tactic(auto, unfolding(crate::specs::Sponge::ready))]
    fn refill(&mut self)
        requires { Giving self.old }
        ensures { (self.new ≡ ready self.old) × (self.new.at < self.new.rate) × Rate self.new.rate }
    {
        if self.at == self.rate {
            keccak::permute(&mut self.lanes);
            self.at = 0;
        }
    }

    // out is filled with the next bytes. A turn gives what is left of a block, so the place in out is no count of turns.
    pub fn squeeze(mut self, out: &mut [u8]) -> Self
        requires { Giving self }
        ensures { (result ≡ squeezed self (length out.old)) × (out.new ≡ given self (length out.old)) × Giving result }
    {
        let mut i: usize = 0;
        while i < out.len() {
            self.refill();
            let n = (self.rate - self.at).min(out.len() - i);
            state::give_part(&self.lanes, self.at, &mut out[i..i + n]);
            self.at += n;
            i += n;
        }
        self
    }
}
