// The tables that a host lends for a set, and LowMC over them: a round, the encryption, a public key. No branch and no index
// depends on a secret bit.
#![tactic(auto)]

ghost use Rattle.lowmc.specs.Lent.{Lent};
ghost use Rattle.lowmc.specs.LentProp.{Lent-prop};

use crate::{piece, products, sboxes, turn, xor_each};
use bits::Block;
use sets::Set;

// A set and its lent tables: keys and layers hold its matrices, constants its round constants.
#[derive(Clone, Copy)]
pub struct Tables<'a> {
    pub set: Set,
    pub keys: &'a [u8],
    pub layers: &'a [u8],
    pub constants: &'a [u8],
    pub ghost lent: { Lent set keys.now layers.now constants.now } by { Lent-prop set keys.now layers.now constants.now },
}

impl Tables<'_> {
    ghost use Rattle.std.specs.Prelude.{◌≡◌, ℕ, ◌+◌, ◌≤◌, ◌<◌, length};
    ghost use Rattle.slices.specs.Slices.{over};
    ghost use Rattle.bits.specs.Bits.{◌⊕◌};
    ghost use Rattle.bits.specs.Words.{block_bits};
    ghost use Rattle.sets.specs.Lengths.{w, public_length};
    ghost use Rattle.circuit.specs.Matrices.{product};
    ghost use Rattle.circuit.specs.Lowmc.{start, step, encryption};
    ghost use Rattle.lowmc.specs.Cipher.{cipher};
    ghost use Rattle.lowmc.specs.Vectors.{at};
    ghost use Rattle.lowmc.specs.Encrypted.{encrypted, public_key};

    // Round constant i.
    pub fn constant(&self, i: usize) -> Block
        requires { i < self.now.set.r }
        ensures { block_bits result ≡ (cipher self.now).roundconstant i }
    {
        Block::load(piece(self.constants, i, self.set.width()))
    }

    // What stands before the first round for each of N keys, with a block c of its own: Kmatrix[0]·key, and c.
    pub fn start<const N: usize>(&self, key: [Block; N], c: [Block; N]) -> [Block; N]
        ensures { (k : ℕ) → k < N → block_bits (at result k) ≡ start (cipher self.now) (block_bits (at key.entry k)) (block_bits (at c.entry k)) }
    {
        xor_each(products(self.set, self.keys, 0, key), c)
    }

    // What follows the S-boxes of a round, y, for each of N keys, with a block c of its own: Lmatrix[i]·y, c, and Kmatrix[i+1]·key.
    pub fn turn<const N: usize>(
        &self,
        i: usize,
        key: [Block; N],
        c: [Block; N],
        y: [Block; N],
    ) -> [Block; N]
        requires { i < self.now.set.r }
        ensures { (k : ℕ) → k < N → block_bits (at result k) ≡ product self.now.set.n ((cipher self.now).Lmatrix i) (block_bits (at y.entry k))
            ⊕ block_bits (at c.entry k) ⊕ product self.now.set.n ((cipher self.now).Kmatrix (i + 1)) (block_bits (at key.entry k)) }
    {
        turn(self.set, self.keys, self.layers, i, key, c, y)
    }

    // A round of LowMC.
    pub fn step(&self, i: usize, key: Block, x: Block) -> Block
        requires { i < self.now.set.r }
        ensures { block_bits result ≡ step (cipher self.now) (block_bits key) i (block_bits x) }
    {
        let c = self.constant(i);
        let [y] = self.turn(i, [key], [c], [sboxes(self.set, x)]);
        y
    }

    // The encryption of a block under a key.
    pub fn encryption(&self, key: Block, block: Block) -> Block
        ensures { block_bits result ≡ encryption (cipher self.now) (block_bits key) (block_bits block) }
    {
        let [mut x] = self.start([key], [block]);
        for i in 0..self.set.r {
            x = self.step(i, key, x);
        }
        x
    }

    // The encryption of a block under a secret key, at the start of output.
    pub fn encrypt(&self, secret: &[u8], block: &[u8], output: &mut [u8])
        requires { (length secret.now ≡ w self.now.set) × (length block.now ≡ w self.now.set) × (w self.now.set ≤ length output.old) }
        ensures { output.new ≡ over (encrypted self.now.set self.now.keys.now self.now.layers.now self.now.constants.now secret.now block.now) output.old }
    {
        let w = self.set.width();
        let key = Block::load(secret);
        let x = self.encryption(key, Block::load(block));
        x.store(&mut output[0..w]);
    }

    // The public key of a secret key and a plaintext block, at the start of output.
    pub fn public_key(&self, secret: &[u8], block: &[u8], output: &mut [u8])
        requires { (length secret.now ≡ w self.now.set) × (length block.now ≡ w self.now.set)
            × (public_length self.now.set ≤ length output.old) }
        ensures { output.new ≡ over (public_key self.now.set self.now.keys.now self.now.layers.now self.now.constants.now secret.now block.now) output.old }
    {
        self.encrypt(secret, block, output);
        slices::place(block, output, self.set.width());
    }
}
