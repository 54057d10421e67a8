// Keccak-f[1600], the permutation of FIPS 202: 25 lanes of 64 bits, the lane A[x, y] at 5 * y + x.
#![tactic(auto)]

ghost use Rattle.std.specs.Prelude.{◌≡◌};
ghost use Rattle.keccak.specs.Lanes.{theta, rho, pi, chi, permuted};

// What iota adds to the first lane, round by round.
const CONSTANTS: [u64; 24] = [
    0x0000000000000001,
    0x0000000000008082,
    0x800000000000808a,
    0x8000000080008000,
    0x000000000000808b,
    0x0000000080000001,
    0x8000000080008081,
    0x8000000000008009,
    0x000000000000008a,
    0x0000000000000088,
    0x0000000080008009,
    0x000000008000000a,
    0x000000008000808b,
    0x800000000000008b,
    0x8000000000008089,
    0x8000000000008003,
    0x8000000000008002,
    0x8000000000000080,
    0x000000000000800a,
    0x800000008000000a,
    0x8000000080008081,
    0x8000000000008080,
    0x0000000080000001,
    0x8000000080008008,
];

// Theta: to each lane the sums of two neighbouring columns are added, one of them turned.
#[tactic(auto, unfolding(crate::specs::Lanes::theta))]
fn theta(a: [u64; 25]) -> [u64; 25]
    ensures { result ≡ theta a }
{
    let [
        a0,
        a1,
        a2,
        a3,
        a4,
        a5,
        a6,
        a7,
        a8,
        a9,
        a10,
        a11,
        a12,
        a13,
        a14,
        a15,
        a16,
        a17,
        a18,
        a19,
        a20,
        a21,
        a22,
        a23,
        a24,
    ] = a;
    let c0 = a0 ^ (a5 ^ (a10 ^ (a15 ^ a20)));
    let c1 = a1 ^ (a6 ^ (a11 ^ (a16 ^ a21)));
    let c2 = a2 ^ (a7 ^ (a12 ^ (a17 ^ a22)));
    let c3 = a3 ^ (a8 ^ (a13 ^ (a18 ^ a23)));
    let c4 = a4 ^ (a9 ^ (a14 ^ (a19 ^ a24)));
    let d0 = c4 ^ c1.rotate_left(1);
    let d1 = c0 ^ c2.rotate_left(1);
    let d2 = c1 ^ c3.rotate_left(1);
    let d3 = c2 ^ c4.rotate_left(1);
    let d4 = c3 ^ c0.rotate_left(1);
    [
        a0 ^ d0,
        a1 ^ d1,
        a2 ^ d2,
        a3 ^ d3,
        a4 ^ d4,
        a5 ^ d0,
        a6 ^ d1,
        a7 ^ d2,
        a8 ^ d3,
        a9 ^ d4,
        a10 ^ d0,
        a11 ^ d1,
        a12 ^ d2,
        a13 ^ d3,
        a14 ^ d4,
        a15 ^ d0,
        a16 ^ d1,
        a17 ^ d2,
        a18 ^ d3,
        a19 ^ d4,
        a20 ^ d0,
        a21 ^ d1,
        a22 ^ d2,
        a23 ^ d3,
        a24 ^ d4,
    ]
}

// Rho, then pi: each lane is turned by its offset and goes where pi puts it.
#[tactic(auto, unfolding(crate::specs::Lanes::rho, crate::specs::Lanes::pi))]
fn rho_pi(a: [u64; 25]) -> [u64; 25]
    ensures { result ≡ pi (rho a) }
{
    let [
        a0,
        a1,
        a2,
        a3,
        a4,
        a5,
        a6,
        a7,
        a8,
        a9,
        a10,
        a11,
        a12,
        a13,
        a14,
        a15,
        a16,
        a17,
        a18,
        a19,
        a20,
        a21,
        a22,
        a23,
        a24,
    ] = a;
    [
        a0,
        a6.rotate_left(44),
        a12.rotate_left(43),
        a18.rotate_left(21),
        a24.rotate_left(14),
        a3.rotate_left(28),
        a9.rotate_left(20),
        a10.rotate_left(3),
        a16.rotate_left(45),
        a22.rotate_left(61),
        a1.rotate_left(1),
        a7.rotate_left(6),
        a13.rotate_left(25),
        a19.rotate_left(8),
        a20.rotate_left(18),
        a4.rotate_left(27),
        a5.rotate_left(36),
        a11.rotate_left(10),
        a17.rotate_left(15),
        a23.rotate_left(56),
        a2.rotate_left(62),
        a8.rotate_left(55),
        a14.rotate_left(39),
        a15.rotate_left(41),
        a21.rotate_left(2),
    ]
}

// Chi: to each lane the product of the next two of its row is added, the first of them flipped.
#[tactic(auto, unfolding(crate::specs::Lanes::chi))]
fn chi(a: [u64; 25]) -> [u64; 25]
    ensures { result ≡ chi a }
{
    let [
        a0,
        a1,
        a2,
        a3,
        a4,
        a5,
        a6,
        a7,
        a8,
        a9,
        a10,
        a11,
        a12,
        a13,
        a14,
        a15,
        a16,
        a17,
        a18,
        a19,
        a20,
        a21,
        a22,
        a23,
        a24,
    ] = a;
    [
        a0 ^ (!a1 & a2),
        a1 ^ (!a2 & a3),
        a2 ^ (!a3 & a4),
        a3 ^ (!a4 & a0),
        a4 ^ (!a0 & a1),
        a5 ^ (!a6 & a7),
        a6 ^ (!a7 & a8),
        a7 ^ (!a8 & a9),
        a8 ^ (!a9 & a5),
        a9 ^ (!a5 & a6),
        a10 ^ (!a11 & a12),
        a11 ^ (!a12 & a13),
        a12 ^ (!a13 & a14),
        a13 ^ (!a14 & a10),
        a14 ^ (!a10 & a11),
        a15 ^ (!a16 & a17),
        a16 ^ (!a17 & a18),
        a17 ^ (!a18 & a19),
        a18 ^ (!a19 & a15),
        a19 ^ (!a15 & a16),
        a20 ^ (!a21 & a22),
        a21 ^ (!a22 & a23),
        a22 ^ (!a23 & a24),
        a23 ^ (!a24 & a20),
        a24 ^ (!a20 & a21),
    ]
}

// The 24 rounds, on a copy of the lanes that can stay in registers.
pub fn permute(a: &mut [u64; 25])
    ensures { a.new ≡ permuted a.old }
{
    let mut s = *a;
    for k in &CONSTANTS {
        s = chi(rho_pi(theta(s)));
        s[0] ^= *k;
    }
    *a = s;
}
