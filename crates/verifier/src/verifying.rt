// A signature in verification: its rounds recomputed into the room, and the verdict on the challenge.
#![tactic(auto, using(room::proofs::Fits::fits))]

ghost use Rattle.std.specs.Prelude.{◌≡◌, length};
ghost use Rattle.sets.specs.Lengths.{public_length};
ghost use Rattle.answers.specs.Answers.{Fine, first};
ghost use Rattle.shape.specs.Reading.{read_checks};
ghost use Rattle.verifier.specs.CheckedProp.{Checked-prop};

use crate::fill_round;
use answers::Refusal;
use lowmc::Tables;
use parts::{Here, Shown};
use sets::Set;

// What is verified: a signature that reads well, with a public key and the tables of its set.
#[derive(Clone, Copy)]
pub struct Verifying<'a> {
    pub tables: Tables<'a>,
    pub public: &'a [u8],
    pub signature: &'a [u8],
    pub ghost public_long: { length public.now ≡ public_length tables.set },
    pub ghost reads: { first (read_checks tables.set signature.now) ≡ Fine } by { Checked-prop (first (read_checks tables.set signature.now)) Fine },
}

impl Verifying<'_> {
    ghost use Rattle.std.specs.Prelude.{◌+◌, ◌≤◌, ◌<◌};
    ghost use Rattle.slices.specs.Slices.{part, over, cleared, equal};
    ghost use Rattle.sets.specs.Lengths.{salt_length, header_length, room_length};
    ghost use Rattle.lowmc.specs.Cipher.{cipher};
    ghost use Rattle.hashing.specs.Hashing.{h};
    ghost use Rattle.shape.specs.Header.{values};
    ghost use Rattle.shape.specs.Form.{form, values_in};
    ghost use Rattle.parts.specs.Places.{Located};
    ghost use Rattle.views.specs.Parties.{three};
    ghost use Rattle.views.specs.Input.{challenge_input, opened_outputs, opened_commitments, verifier_filling};
    ghost use Rattle.room.specs.Room.{with_round};
    ghost use Rattle.verifier.specs.Verify.{verdict_checks, first_block};

    // The salt, which stands behind the header.
    fn salt(&self) -> &[u8]
        ensures { result.now ≡ part self.now.signature.now (header_length self.now.tables.set) salt_length }
    {
        let from = self.tables.set.header();
        let end = from + Set::SALT;
        &self.signature[from..end]
    }

    // Round t recomputed from where its parts stand in the signature.
    fn fill_at(&self, here: Here, t: usize, room: &mut [u8])
        requires { (t < self.now.tables.set.t) × Located self.now.tables.set self.now.signature.now t here
            × (room_length self.now.tables.set ≤ length room.old) }
        ensures { room.new
            ≡ with_round self.now.tables.set t
            (three (opened_outputs self.now.tables.set (cipher self.now.tables) self.now.public.now (form self.now.tables.set self.now.signature.now) t))
            (three (opened_commitments self.now.tables.set (cipher self.now.tables) self.now.public.now (form self.now.tables.set self.now.signature.now) t))
            room.old }
    {
        let q = here.parts;
        let shown = Shown {
            commitment: &self.signature[q.commitment..q.transcript],
            transcript: &self.signature[q.transcript..q.seed1],
            seed1: &self.signature[q.seed1..q.seed2],
            seed2: &self.signature[q.seed2..q.share],
            share: &self.signature[q.share..q.next],
        };
        fill_round(
            &self.tables,
            self.public,
            self.salt(),
            t,
            here.value,
            &shown,
            room,
        );
    }

    // All rounds recomputed: the room is filled with their output shares and commitments.
    fn fill(&self, room: &mut [u8])
        requires { room_length self.now.tables.set ≤ length room.old }
        ensures { (room.new
            ≡ over
            (verifier_filling self.now.tables.set (cipher self.now.tables) self.now.public.now (form self.now.tables.set self.now.signature.now))
            room.old)
            × (length
            (verifier_filling self.now.tables.set (cipher self.now.tables) self.now.public.now (form self.now.tables.set self.now.signature.now))
            ≡ room_length self.now.tables.set) }
    {
        let p = self.tables.set;
        let mut cursor = parts::start(p);
        for t in 0..p.t {
            let here = parts::locate(p, self.signature, cursor);
            self.fill_at(here, t, room);
            cursor = here.next;
        }
    }

    // The values are those of the signature's header.
    fn agrees(&self, found: &[u8]) -> bool
        requires { length found.now ≡ self.now.tables.set.t }
        ensures { result ≡ equal found.now (values self.now.tables.set self.now.signature.now) }
    {
        let mut d = 0u8;
        for (k, v) in found.iter().enumerate() {
            d |= *v ^ parts::value(self.signature, k);
        }
        d == 0
    }

    // The verdict on a filled room: too few values, another challenge, or valid.
    fn judge(&self, filled: &[u8], message: &[u8], limit: u64) -> Result<(), Refusal>
        ensures { result
            ≡ first
            (verdict_checks self.now.tables.set
            (h self.now.tables.set 1
            (challenge_input filled.now (part self.now.signature.now (header_length self.now.tables.set) salt_length) self.now.public.now message.now))
            limit (values self.now.tables.set self.now.signature.now)) }
    {
        let p = self.tables.set;
        let t = p.t;
        let mut values = [0u8; 438];
        room::challenge(
            p,
            filled,
            self.salt(),
            self.public,
            message,
            limit,
            &mut values,
        )?;
        if self.agrees(&values[..t]) {
            return Ok(());
        }
        Err(Refusal::Differs)
    }

    // The rounds, the challenge and the verdict; the room is cleared.
    pub fn verdict(&self, message: &[u8], limit: u64, room: &mut [u8]) -> Result<(), Refusal>
        requires { room_length self.now.tables.set ≤ length room.old }
        ensures { (result
            ≡ first
            (verdict_checks self.now.tables.set
            (first_block self.now.tables.set self.now.tables.keys.now self.now.tables.layers.now self.now.tables.constants.now
            self.now.public.now message.now (form self.now.tables.set self.now.signature.now))
            limit (values_in self.now.tables.set (form self.now.tables.set self.now.signature.now))))
            × (room.new ≡ cleared (room_length self.now.tables.set) room.old) }
    {
        self.fill(room);
        let n = self.tables.set.room_length();
        let verdict = self.judge(&room[..n], message, limit);
        slices::clear(room, n);
        verdict
    }
}
