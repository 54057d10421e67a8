// A signature in the making: its rounds, the pass that fills the room, and the pass that writes the signature.
#![tactic(auto, using(room::proofs::Fits::fits))]

ghost use Rattle.signer.specs.Played.{Ready};
ghost use Rattle.signer.specs.ReadyProp.{Ready-prop};

use crate::{Played, commit_party, in_bytes, shown_share};
use bits::Block;
use lowmc::Tables;
use parts::Shown;
use sets::Set;

// What a signature is made from: the tables of its set, both keys, the seeds, and the states of the encryption.
#[derive(Clone, Copy)]
pub struct Signing<'a> {
    pub tables: Tables<'a>,
    pub secret: &'a [u8],
    pub public: &'a [u8],
    pub seeds: &'a [u8],
    pub states: &'a [Block; 40],
    pub ghost ready: { Ready tables.set tables.keys.now tables.layers.now tables.constants.now secret.now public.now seeds.now states.now } by { Ready-prop tables.set tables.keys.now tables.layers.now tables.constants.now secret.now public.now seeds.now states.now },
}

impl Signing<'_> {
    ghost use Rattle.std.specs.Prelude.{◌≡◌, ◌++◌, ◌+◌, ◌≤◌, ◌<◌, length, take};
    ghost use Rattle.slices.specs.Slices.{put, over, equal};
    ghost use Rattle.sets.specs.Lengths.{w, seed_width, transcript_length, salt_length, header_length, room_length, longest};
    ghost use Rattle.circuit.specs.Round.{Party, next, by_party};
    ghost use Rattle.circuit.specs.Tapes.{party_number, tape_length};
    ghost use Rattle.lowmc.specs.Cipher.{cipher};
    ghost use Rattle.lowmc.specs.Encrypted.{encrypted, ciphertext, plaintext};
    ghost use Rattle.shape.specs.Fields.{sizes};
    ghost use Rattle.shape.specs.Header.{header_of, AreValues};
    ghost use Rattle.shape.specs.Rounds.{round_fields};
    ghost use Rattle.shape.specs.Form.{round_of};
    ghost use Rattle.parts.specs.Places.{showing};
    ghost use Rattle.views.specs.Parties.{party_of, three};
    ghost use Rattle.views.specs.Signed.{seed_at, salt_at};
    ghost use Rattle.views.specs.Input.{signer_filling};
    ghost use Rattle.room.specs.Room.{commitments_at, with_round};
    ghost use Rattle.signer.specs.Played.{PlayedAs};
    ghost use Rattle.signer.specs.Sign.{signature_for};
    ghost use Rattle.signer.specs.Making.{round_tapes, outputs_of, commitments_of, shown_of, PlayedIn};

    // Whether the last state of the encryption is the ciphertext of the public key. Every byte is looked at.
    pub fn paired(&self) -> bool
        ensures { result
            ≡ equal
            (encrypted self.now.tables.set self.now.tables.keys.now self.now.tables.layers.now self.now.tables.constants.now self.now.secret.now
            (plaintext self.now.tables.set self.now.public.now))
            (ciphertext self.now.tables.set self.now.public.now) }
    {
        let p = self.tables.set;
        let w = p.width();
        let c = room::stored(p, self.states[p.r]);
        slices::equal(&c[..w], &self.public[..w])
    }

    // The seed of party j in round t.
    fn seed(&self, t: usize, j: usize) -> &[u8]
        requires { (t < self.now.tables.set.t) × (j < 3) }
        ensures named { (k : Party) → j ≡ party_number k → result.now ≡ seed_at self.now.tables.set self.now.seeds.now t k }
        ensures wide { length result.now ≡ seed_width self.now.tables.set }
    {
        let w = self.tables.set.seed_width();
        let at = (3 * t + j) * w;
        let end = at + w;
        &self.seeds[at..end]
    }

    // The salt, which stands behind the seeds.
    pub fn salt(&self) -> &[u8]
        ensures { result.now ≡ salt_at self.now.tables.set self.now.seeds.now }
    {
        let p = self.tables.set;
        let at = 3 * p.t * p.seed_width();
        &self.seeds[at..]
    }

    // The tape of party j in round t from the lent seeds, at the start of an array.
    fn seeded_tape(&self, t: usize, j: usize) -> [u8; 175]
        requires { (t < self.now.tables.set.t) × (j < 3) }
        ensures { (k : Party) → j ≡ party_number k → take (tape_length (cipher self.now.tables) k) result ≡ round_tapes self.now t k }
    {
        room::party_tape(self.tables.set, self.seed(t, j), self.salt(), t, j)
    }

    // A round over its three tapes. Never in the frame of the caller, who hashes: so hashing and the simulation do not use the stack
    // at the same time.
    #[inline(never)]
    fn play(&self, t0: &[u8], t1: &[u8], t2: &[u8]) -> Played
        requires { (w self.now.tables.set ≤ length t0.now) × (w self.now.tables.set ≤ length t1.now) }
        ensures { PlayedAs (cipher self.now.tables) self.now.secret.now (by_party t0.now t1.now t2.now)
            (plaintext self.now.tables.set self.now.public.now) result }
    {
        let p = self.tables.set;
        let w = p.width();
        let x = round::input_shares(p, Block::load(self.secret), t0, t1);
        let plain = Block::load(&self.public[w..]);
        let v = round::simulate(&self.tables, x, plain, t0, t1, t2, self.states);
        in_bytes(p, x, &v)
    }

    // Round t, from the lent seeds. In the frame of the caller, so that its tapes and what it leaves are not on the stack twice.
    #[inline(always)]
    fn played(&self, t: usize) -> Played
        requires { t < self.now.tables.set.t }
        ensures { PlayedIn self.now t result }
    {
        let m = room::tape_length(self.tables.set, 0);
        let n = room::tape_length(self.tables.set, 2);
        let t0 = self.seeded_tape(t, 0);
        let t1 = self.seeded_tape(t, 1);
        let t2 = self.seeded_tape(t, 2);
        self.play(&t0[..m], &t1[..m], &t2[..n])
    }

    // The commitment of party j in round t, at the start of an array.
    fn commitment_of(&self, t: usize, j: usize, x: &Played) -> [u8; 64]
        requires { (t < self.now.tables.set.t) × (j < 3) × PlayedIn self.now t x.now }
        ensures { (k : Party) → j ≡ party_number k → take self.now.tables.set.digest result ≡ commitments_of self.now t k }
    {
        commit_party(
            self.tables.set,
            self.seed(t, j),
            x.inputs[j],
            x.said[j],
            x.outputs[j],
        )
    }

    // The commitments of round t in the room.
    fn put_commitments(&self, t: usize, x: &Played, room: &mut [u8])
        requires { (t < self.now.tables.set.t) × PlayedIn self.now t x.now × (room_length self.now.tables.set ≤ length room.old) }
        ensures { room.new ≡ put room.old (commitments_at self.now.tables.set t) (three (commitments_of self.now t)) }
    {
        let p = self.tables.set;
        let n = p.digest;
        let a = self.commitment_of(t, 0, x);
        let b = self.commitment_of(t, 1, x);
        let c = self.commitment_of(t, 2, x);
        room::put_commitments(p, t, 0, &a[..n], &b[..n], &c[..n], room);
    }

    // Round t: its output shares and commitments go into the room.
    fn fill_round(&self, t: usize, room: &mut [u8])
        requires { (t < self.now.tables.set.t) × (room_length self.now.tables.set ≤ length room.old) }
        ensures { room.new
            ≡ with_round self.now.tables.set t (three (outputs_of self.now t)) (three (commitments_of self.now t)) room.old }
    {
        let x = self.played(t);
        let [a, b, c] = x.outputs;
        room::put_outputs(self.tables.set, t, 0, a, b, c, room);
        self.put_commitments(t, &x, room);
    }

    // The first pass: the room is filled with the output shares and commitments of all rounds.
    pub fn fill(&self, room: &mut [u8])
        requires { room_length self.now.tables.set ≤ length room.old }
        ensures { room.new
            ≡ over
            (signer_filling self.now.tables.set (cipher self.now.tables) self.now.secret.now self.now.public.now self.now.seeds.now)
            room.old }
    {
        for t in 0..self.tables.set.t {
            self.fill_round(t, room);
        }
    }

    // The parts of a round that stand at the start of arrays, and the seeds of parties e and e+1, at a place of the output.
    fn write_parts(
        &self,
        t: usize,
        e: u8,
        commitment: [u8; 64],
        said: [u8; 143],
        share: [u8; 32],
        output: &mut [u8],
        at: usize,
    ) -> usize
        requires { (t < self.now.tables.set.t) × (e < 3) × (at + sizes (round_fields self.now.tables.set e) ≤ length output.old) }
        ensures { (result ≡ at + sizes (round_fields self.now.tables.set e))
            × (output.new ≡ put output.old at
            (round_of self.now.tables.set e
            (showing (take self.now.tables.set.digest commitment) (take (transcript_length self.now.tables.set) said)
            (seed_at self.now.tables.set self.now.seeds.now t (party_of e)) (seed_at self.now.tables.set self.now.seeds.now t (next (party_of e)))
            (take (w self.now.tables.set) share)))) }
    {
        let p = self.tables.set;
        let j = usize::from(e);
        let d = p.digest;
        let m = p.transcript();
        let w = p.width();
        let shown = Shown {
            commitment: &commitment[..d],
            transcript: &said[..m],
            seed1: self.seed(t, j),
            seed2: self.seed(t, (j + 1) % 3),
            share: &share[..w],
        };
        parts::put_round(p, e, shown, output, at)
    }

    // What is shown of round t for the value e, at a place of the output; where the next round starts.
    fn write_shown(&self, t: usize, e: u8, x: &Played, output: &mut [u8], at: usize) -> usize
        requires { (t < self.now.tables.set.t) × (e < 3) × PlayedIn self.now t x.now
            × (at + sizes (round_fields self.now.tables.set e) ≤ length output.old) }
        ensures { (result ≡ at + sizes (round_fields self.now.tables.set e))
            × (output.new ≡ put output.old at (round_of self.now.tables.set e (shown_of self.now t e))) }
    {
        let j = usize::from(e);
        let k = (j + 1) % 3;
        let commitment = self.commitment_of(t, (j + 2) % 3, x);
        let share = shown_share(self.tables.set, e, x.inputs);
        self.write_parts(t, e, commitment, x.said[k], share, output, at)
    }

    // Round t, simulated anew and written for the value e at a place of the output; where the next round starts.
    fn write_round(&self, t: usize, e: u8, output: &mut [u8], at: usize) -> usize
        requires { (t < self.now.tables.set.t) × (e < 3) × (at + sizes (round_fields self.now.tables.set e) ≤ length output.old) }
        ensures { (result ≡ at + sizes (round_fields self.now.tables.set e))
            × (output.new ≡ put output.old at (round_of self.now.tables.set e (shown_of self.now t e))) }
    {
        let again = self.played(t);
        self.write_shown(t, e, &again, output, at)
    }

    // Header and salt, at the start of the output.
    fn write_front(&self, values: &[u8], output: &mut [u8])
        requires { (length values.now ≡ self.now.tables.set.t) × AreValues values.now
            × (header_length self.now.tables.set + salt_length ≤ length output.old) }
        ensures { output.new ≡ over (header_of self.now.tables.set values.now ++ salt_at self.now.tables.set self.now.seeds.now) output.old }
    {
        let p = self.tables.set;
        parts::put_header(p, values, output);
        slices::place(self.salt(), output, p.header());
    }

    // The second pass: the signature for the challenge values at the start of the output, and its length.
    pub fn write(&self, values: &[u8], output: &mut [u8]) -> usize
        requires { (length values.now ≡ self.now.tables.set.t) × AreValues values.now × (longest self.now.tables.set ≤ length output.old) }
        ensures { (result ≡ length
            (signature_for self.now.tables.set (cipher self.now.tables) self.now.secret.now self.now.public.now self.now.seeds.now values.now))
            × (output.new ≡ over
            (signature_for self.now.tables.set (cipher self.now.tables) self.now.secret.now self.now.public.now self.now.seeds.now values.now)
            output.old) }
    {
        self.write_front(values, output);
        let mut at = self.tables.set.header() + Set::SALT;
        for (t, e) in values.iter().enumerate() {
            at = self.write_round(t, *e, output, at);
        }
        at
    }
}
