// The bytes of a state: bytes added to it and bytes given from it, by words of eight where that can be. Lane k has the bytes from 8 * k on, the low one first.
ghost use Rattle.std.specs.Prelude.{◌≡◌, ◌+◌, ◌*◌, ◌%◌, ◌<◌, ◌≤◌, length};
ghost use Rattle.shake.specs.Shake.{octets, byte_at, bytes_at, byte_added, added};

// b is added to byte j of the state.
pub fn add_byte(a: &mut [u64; 25], j: usize, b: u8)
    requires { j < 200 }
    ensures { a.new ≡ byte_added a.old j b }
{
    a[j / 8] ^= u64::from(b) << (8 * (j % 8));
}

// The eight bytes of w are added from byte j on. Where j starts no lane they lie in two lanes, so the last lane of the state is left out.
fn add_word(a: &mut [u64; 25], j: usize, w: u64)
    requires { j < 192 }
    ensures { a.new ≡ added a.old j (octets 8 w) }
{
    let k = j / 8;
    let d = 8 * (j % 8);
    a[k] ^= w << d;
    if d != 0 {
        a[k + 1] ^= w >> (64 - d);
    }
}

// The bytes of s are added from byte j on: by words, and the last few one by one.
pub fn add_part(a: &mut [u64; 25], j: usize, s: &[u8])
    requires { j + length s.now ≤ 192 }
    ensures { a.new ≡ added a.old j s.now }
{
    let (words, bytes) = s.as_chunks::<8>();
    for (q, w) in words.iter().enumerate() {
        add_word(a, j + 8 * q, u64::from_le_bytes(*w));
    }
    let m = j + 8 * words.len();
    for (q, b) in bytes.iter().enumerate() {
        add_byte(a, m + q, *b);
    }
}

// Byte j of the state. By a shift: an index into the bytes of the lane would store them first.
#[tactic(auto, unfolding(crate::specs::Shake::byte_at))]
fn byte_of(a: &[u64; 25], j: usize) -> u8
    requires { j < 200 }
    ensures { result ≡ byte_at a.now j }
{
    ((a[j / 8] >> (8 * (j % 8))) % 256) as u8
}

// out, some whole words, is filled from the lane k on. By index: of chunks that are lent a proof does not know what is written to them.
fn give_words(a: &[u64; 25], k: usize, out: &mut [u8])
    requires { (8 * k + length out.old ≤ 200) × (length out.old % 8 ≡ 0) }
    ensures { out.new ≡ bytes_at a.now (8 * k) (length out.old) }
{
    for q in 0..out.len() / 8 {
        out[8 * q..8 * q + 8].copy_from_slice(&a[k + q].to_le_bytes());
    }
}

// out is filled from byte j on, one byte after the other.
fn give_bytes(a: &[u64; 25], j: usize, out: &mut [u8])
    requires { j + length out.old ≤ 200 }
    ensures { out.new ≡ bytes_at a.now j (length out.old) }
{
    for (q, b) in out.iter_mut().enumerate() {
        *b = byte_of(a, j + q);
    }
}

// out is filled from byte j of the state on: by words where j starts a lane, and the last few bytes one by one.
pub fn give_part(a: &[u64; 25], j: usize, out: &mut [u8])
    requires { j + length out.old ≤ 200 }
    ensures { out.new ≡ bytes_at a.now j (length out.old) }
{
    if j % 8 != 0 {
        give_bytes(a, j, out);
        return;
    }
    let m = out.len() / 8 * 8;
    let (words, bytes) = out.split_at_mut(m);
    give_words(a, j / 8, words);
    give_bytes(a, j + m, bytes);
}
