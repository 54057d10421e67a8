// LowMC: products, S-boxes, and the calls over lent tables. No branch and no index depends on a secret bit.
#![tactic(auto)]

ghost use Rattle.std.specs.Prelude.{◌≡◌, ℕ, ◌+◌, ◌*◌, ◌%◌, ◌^◌, ◌≤◌, ◌<◌, get_or, length};
ghost use Rattle.slices.specs.Slices.{part};
ghost use Rattle.bits.specs.Bits.{◌⊕◌, Agree, up_to, from};
ghost use Rattle.bits.specs.Bytes.{bits_of, odd, digit};
ghost use Rattle.bits.specs.Words.{word_bits, block_bits, Holds};
ghost use Rattle.bits.specs.Inner.{low_bits};
ghost use Rattle.lowmc.specs.Vectors.{at};
ghost use Rattle.sets.specs.Sets.{IsSet};
ghost use Rattle.answers.specs.Answers.{first, as_answer};
ghost use Rattle.sets.specs.Lengths.{w, keys_length, layers_length};
ghost use Rattle.circuit.specs.Matrices.{row_parity, product};
ghost use Rattle.circuit.specs.Lowmc.{sboxes};
ghost use Rattle.circuit.specs.Gates.{left_factor, right_factor, sboxes_by};
ghost use Rattle.lowmc.specs.Lent.{row, matrix_of};
ghost use Rattle.lowmc.specs.Inner.{Words, InWord, starts, Laned};
ghost use Rattle.lowmc.specs.Calls.{lowmc_checks, EncryptPromise, PublicKeyPromise};

mod tables;

use answers::Refusal;
use bits::Block;
use sets::Set;
pub use tables::Tables;

// Piece i of s, where pieces of n bytes lie one after the other.
fn piece(s: &[u8], i: usize, n: usize) -> &[u8]
    requires { (i + 1) * n ≤ length s.now }
    ensures { result.now ≡ part s.now (i * n) n }
{
    let start = i * n;
    &s[start..start + n]
}

// The ones in word k of row AND v. Words of v have their first byte lowest, as words of the row have when they are loaded: the
// order of bytes does not count, and so nothing is turned in the loop over rows.
fn ones(row: &[u8], v: Block, k: usize) -> u32
    requires { (k < 4) × (8 * k + 8 ≤ length row.now) }
    ensures { (result ≤ 64) × (odd result ≡ row_parity 64 (from (64 * k) (bits_of row.now)) (from (64 * k) (low_bits v))) }
{
    u64::count_ones(bits::load_low(row, 8 * k) & v.words[k])
}

// The ones in row AND v: the sum of those in each word of the row. Each width has an expression of its own, and so a loop over rows
// of its own.
fn row_ones(row: &[u8], v: Block) -> u32
    requires { Words (length row.now) }
    ensures { odd result ≡ row_parity (8 * length row.now) (bits_of row.now) (low_bits v) }
{
    match row.len() {
        16 => ones(row, v, 0) + ones(row, v, 1),
        24 => ones(row, v, 0) + ones(row, v, 1) + ones(row, v, 2),
        _ => ones(row, v, 0) + ones(row, v, 1) + ones(row, v, 2) + ones(row, v, 3),
    }
}

// The parity of row AND v: the low bit of the sum.
fn row_parity(row: &[u8], v: Block) -> u32
    requires { Words (length row.now) }
    ensures { result ≡ digit (row_parity (8 * length row.now) (bits_of row.now) (low_bits v)) }
{
    row_ones(row, v) % 2
}

// Vectors with the bytes of each word in the other order.
fn turned<const N: usize>(v: [Block; N]) -> [Block; N]
    ensures { (k : ℕ) → k < N → Agree 256 (low_bits (at result k)) (block_bits (at v.entry k)) }
{
    let mut t = v;
    for x in t.iter_mut() {
        *x = x.turned();
    }
    t
}

// Words with one bit more: the parity of row AND each of N vectors.
fn with_row<const N: usize>(x: [u64; N], row: &[u8], t: [Block; N]) -> [u64; N]
    requires { Words (length row.now) × ((k : ℕ) → k < N → get_or x k 0 * 2 + 1 < 2 ^ 64) }
    ensures { (k : ℕ) → k < N → get_or result k 0 ≡ get_or x.entry k 0 * 2 + digit (row_parity (8 * length row.now) (bits_of row.now) (low_bits (at t.entry k))) }
{
    let mut y = x;
    for (k, word) in y.iter_mut().enumerate() {
        *word = *word * 2 + row_parity(row, t[k]) as u64;
    }
    y
}

// What the 64 rows of m from row g on give with each of N vectors, the first row's bit highest. Rows have w bytes. A row is read
// once for all vectors.
fn rows_words<const N: usize>(m: &[u8], w: usize, g: usize, v: [Block; N]) -> [u64; N]
    requires { Words w × (g ≤ 192) × ((g + 64) * w ≤ length m.now) }
    ensures { (k : ℕ) → k < N → Holds (from g (λ i. row_parity (8 * w) (row w m.now i) (block_bits (at v.entry k)))) (get_or result k 0) }
{
    let t = turned(v);
    let mut x = [0u64; N];
    // Rows by number: `chunks_exact` counts the bytes that are left as well, up to an instruction more for each row.
    for j in 0..64 {
        x = with_row(x, piece(m, g + j, w), t);
    }
    x
}

// The 64 bits from bit g on of the products of m, 8 w rows of w bytes, and each of N vectors: zero bits past the last row.
fn product_words<const N: usize>(m: &[u8], w: usize, g: usize, v: [Block; N]) -> [u64; N]
    requires { Words w × (g ≤ 192) × (g % 64 ≡ 0) × (length m.now ≡ 8 * w * w) }
    ensures { (k : ℕ) → k < N → Holds (from g (product (8 * w) (row w m.now) (block_bits (at v.entry k)))) (get_or result k 0) }
{
    if 8 * w <= g {
        return [0; N];
    }
    rows_words(m, w, g, v)
}

// The products of m, 8 w rows of w bytes, and each of N vectors.
fn products_rows<const N: usize>(m: &[u8], w: usize, v: [Block; N]) -> [Block; N]
    requires { Words w × (length m.now ≡ 8 * w * w) }
    ensures { (k : ℕ) → k < N → block_bits (at result k) ≡ product (8 * w) (row w m.now) (block_bits (at v.entry k)) }
{
    let a = product_words(m, w, 0, v);
    let b = product_words(m, w, 64, v);
    let c = product_words(m, w, 128, v);
    let d = product_words(m, w, 192, v);
    let mut x = v;
    for (k, block) in x.iter_mut().enumerate() {
        block.words = [a[k], b[k], c[k], d[k]];
    }
    x
}

// The products of matrix k of a table and each of N vectors.
pub fn products<const N: usize>(p: Set, table: &[u8], k: usize, v: [Block; N]) -> [Block; N]
    requires { IsSet p × ((k + 1) * p.n * w p ≤ length table.now) }
    ensures { (j : ℕ) → j < N → block_bits (at result j) ≡ product p.n (matrix_of p.n table.now k) (block_bits (at v.entry j)) }
{
    let w = p.width();
    products_rows(piece(table, k, p.n * w), w, v)
}

// Every third place of a word, from the first on.
const THIRDS: u64 = 0x9249_2492_4924_9249;

// The first places of s S-boxes.
fn firsts(s: usize) -> u64
    requires { InWord s }
    ensures { Holds (starts s) result }
{
    let rest = 64 - 3 * s;
    (THIRDS >> rest) << rest
}

// The bits a, b, c of S-boxes, each at its S-box's first place.
#[derive(Clone, Copy)]
struct Lanes {
    a: u64,
    b: u64,
    c: u64,
}

// The bits of s S-boxes on x.
fn split(x: u64, s: usize) -> Lanes
    requires { InWord s }
    ensures { Laned s (word_bits x) result }
{
    let m = firsts(s);
    Lanes {
        a: m & (x << 2),
        b: m & (x << 1),
        c: m & x,
    }
}

// The s S-boxes on x: what changes of c, b and a is put in their places.
fn sbox_word(x: u64, s: usize) -> u64
    requires { InWord s }
    ensures { Holds (sboxes s (word_bits x)) result }
{
    let l = split(x, s);
    let c = l.a ^ l.b ^ (l.a & l.b);
    let b = l.a ^ (l.c & l.a);
    x ^ (c ^ (b >> 1) ^ ((l.b & l.c) >> 2))
}

// The same, where t has what the gates ab, bc, ca gave.
fn sbox_word_by(x: u64, t: u64, s: usize) -> u64
    requires { InWord s }
    ensures { Holds (sboxes_by s (word_bits x) (word_bits t)) result }
{
    let l = split(x, s);
    let g = split(t, s);
    let c = l.a ^ l.b ^ g.c;
    let b = l.a ^ g.a;
    x ^ (c ^ (b >> 1) ^ (g.b >> 2))
}

// The layer of S-boxes.
pub fn sboxes(p: Set, x: Block) -> Block
    requires { IsSet p }
    ensures { block_bits result ≡ sboxes p.s (block_bits x) }
{
    let top = sbox_word(x.words[0], p.s);
    let words = [top, x.words[1], x.words[2], x.words[3]];
    Block { words }
}

// The layer of S-boxes, where t has what the gates ab, bc, ca gave.
pub fn sboxes_by(p: Set, x: Block, t: u64) -> Block
    requires { IsSet p }
    ensures { block_bits result ≡ sboxes_by p.s (block_bits x) (word_bits t) }
{
    let top = sbox_word_by(x.words[0], t, p.s);
    let words = [top, x.words[1], x.words[2], x.words[3]];
    Block { words }
}

// The left factors a, b, c of the gates ab, bc, ca of a layer.
pub fn left(p: Set, x: Block) -> u64
    requires { IsSet p }
    ensures { word_bits result ≡ up_to (3 * p.s) (left_factor (block_bits x)) }
{
    let l = split(x.words[0], p.s);
    l.a ^ (l.b >> 1) ^ (l.c >> 2)
}

// The right factors b, c, a.
pub fn right(p: Set, x: Block) -> u64
    requires { IsSet p }
    ensures { word_bits result ≡ up_to (3 * p.s) (right_factor (block_bits x)) }
{
    let l = split(x.words[0], p.s);
    l.b ^ (l.c >> 1) ^ (l.a >> 2)
}

// The exclusive ors of blocks with the same place.
fn xor_each<const N: usize>(x: [Block; N], y: [Block; N]) -> [Block; N]
    ensures { (k : ℕ) → k < N → block_bits (at result k) ≡ block_bits (at x.entry k) ⊕ block_bits (at y.entry k) }
{
    let mut z = x;
    for (k, a) in z.iter_mut().enumerate() {
        *a = a.xor(y[k]);
    }
    z
}

// What follows the S-boxes of a round, y, for each of N keys, with a block c of its own: Lmatrix[i]·y, c, and Kmatrix[i+1]·key. It
// reads no constants.
pub fn turn<const N: usize>(
    p: Set,
    keys: &[u8],
    layers: &[u8],
    i: usize,
    key: [Block; N],
    c: [Block; N],
    y: [Block; N],
) -> [Block; N]
    requires { IsSet p × (length keys.now ≡ keys_length p) × (length layers.now ≡ layers_length p) × (i < p.r) }
    ensures { (k : ℕ) → k < N → block_bits (at result k) ≡ product p.n (matrix_of p.n layers.now i) (block_bits (at y.entry k))
        ⊕ block_bits (at c.entry k) ⊕ product p.n (matrix_of p.n keys.now (i + 1)) (block_bits (at key.entry k)) }
{
    let l = products(p, layers, i, y);
    let m = products(p, keys, i + 1, key);
    xor_each(l, xor_each(c, m))
}

// What the calls over LowMC refuse, by the lengths of their slices.
fn check(
    p: Set,
    keys: usize,
    layers: usize,
    constants: usize,
    secret: usize,
    block: usize,
    wanted: usize,
    output: usize,
) -> Result<(), Refusal>
    requires { IsSet p }
    ensures { result ≡ first (lowmc_checks p keys layers constants secret block wanted output) }
{
    if answers::tables_other(p, keys, layers, constants) {
        return Err(Refusal::Table);
    }
    if answers::blocks_other(p, secret, block) {
        return Err(Refusal::Key);
    }
    if output < wanted {
        return Err(Refusal::Room);
    }
    Ok(())
}

// The call that encrypts a block.
pub fn encrypt_call(
    set: u64,
    keys: &[u8],
    layers: &[u8],
    constants: &[u8],
    secret: &[u8],
    block: &[u8],
    output: &mut [u8],
) -> Result<u32, Refusal>
    ensures { EncryptPromise set keys.now layers.now constants.now secret.now block.now output.old (as_answer result) output.new }
{
    let p = Set::numbered(set).ok_or(Refusal::NoSet)?;
    let n = p.width();
    check(
        p,
        keys.len(),
        layers.len(),
        constants.len(),
        secret.len(),
        block.len(),
        n,
        output.len(),
    )?;
    let tables = Tables {
        set: p,
        keys,
        layers,
        constants,
    };
    tables.encrypt(secret, block, output);
    Ok(n as u32)
}

// The call that forms a public key. It is apart from the one above: its outcome is another, and so are its length and its promise.
pub fn public_key_call(
    set: u64,
    keys: &[u8],
    layers: &[u8],
    constants: &[u8],
    secret: &[u8],
    block: &[u8],
    output: &mut [u8],
) -> Result<u32, Refusal>
    ensures { PublicKeyPromise set keys.now layers.now constants.now secret.now block.now output.old (as_answer result) output.new }
{
    let p = Set::numbered(set).ok_or(Refusal::NoSet)?;
    let n = p.public_length();
    check(
        p,
        keys.len(),
        layers.len(),
        constants.len(),
        secret.len(),
        block.len(),
        n,
        output.len(),
    )?;
    let tables = Tables {
        set: p,
        keys,
        layers,
        constants,
    };
    tables.public_key(secret, block, output);
    Ok(n as u32)
}
