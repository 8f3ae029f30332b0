// The attestor of a member that shares a key with each signer and each receiver.
ghost use Rattle.std.specs.Prelude.{◌≡◌, ◌-◌, ◌≤◌, [], true, length, slice_index_or};
ghost use Rattle.std.specs.Option.{option_map};
ghost use Rattle.attest.specs.Parts.{part_bytes};

use crate::attestor::{Attestor, MAX_MEMBERS, TAG_ROOM, WillNotSign};
use crate::compare::same_part;
use crate::group::GroupSize;
use crate::parts::{Key, PART, pair_part, pair_tag};

/// The places for keys: one for each member of the largest group, and one for the dealer.
pub const KEY_ROOM: usize = MAX_MEMBERS as usize + 1;

/// A member's keys: `sending` has, from place 0 on, those of the pairs of the member and receiver 1, 2 and on, and
/// `receiving` those of the pairs of signer 0, 1 and on and the member. The key of the pair of the member with itself is in both.
#[derive(Clone, Copy)]
pub struct PairKeys {
    owner: u8,
    group: GroupSize,
    sending: [Key; KEY_ROOM],
    receiving: [Key; KEY_ROOM],
    ghost member: { 1 ≤ owner },
    ghost among: { owner ≤ group.number },
    ghost rows: { group.number ≤ length sending },
    ghost paired: { slice_index_or sending (owner - 1) [] ≡ slice_index_or receiving owner [] },
}

impl PairKeys {
    ghost use Rattle.attest.specs.PairKeys.{key_room, keys_of, given_keys, fit, padded};

    /// The attestor of a member with the keys that it shares with the receivers 1 to n, and with the signers 0 to n. None
    /// where n is 0 or above the most, the owner is not of 1 to n, or the two rows differ in length by other than 1 or in the
    /// key of the member with itself.
    pub fn new(owner: u8, sending: &[Key], receiving: &[Key]) -> Option<PairKeys>
        ensures { option_map keys_of result ≡ given_keys owner sending.now receiving.now }
    {
        if !Self::fits(owner, sending, receiving) {
            return None;
        }
        let group = GroupSize::try_from(sending.len() as u8).ok()?;
        Some(PairKeys {
            owner,
            group,
            sending: Self::row(sending),
            receiving: Self::row(receiving),
        })
    }

    // Whether the rows are those of a member of a group, and agree on the key of the member with itself.
    fn fits(owner: u8, sending: &[Key], receiving: &[Key]) -> bool
        ensures { result ≡ fit owner sending.now receiving.now }
    {
        let members = sending.len();
        let at = owner as usize;
        members <= MAX_MEMBERS as usize
            && receiving.len() == members + 1
            && 0 < at
            && at <= members
            && sending[at - 1] == receiving[at]
    }

    // The keys, and zeros after them.
    fn row(keys: &[Key]) -> [Key; KEY_ROOM]
        requires { length keys.now ≤ key_room }
        ensures { result ≡ padded keys.now }
    {
        let mut row = [[0; 32]; KEY_ROOM];
        row[0..keys.len()].copy_from_slice(keys);
        row
    }
}

impl Attestor for PairKeys {
    ghost use Rattle.attest.specs.PairKeys.{pair_accepts, own_tag};
    ghost use Rattle.attest.specs.PairLaws.{pair_laws};

    const TAG_PER_MEMBER: usize = PART;

    const TAG_FIXED: usize = 0;

    ghost per_member = { part_bytes };

    ghost fixed = { 0 };

    ghost owner = { λ p. p.owner };

    ghost members = { λ p. p.group.number };

    ghost accepts = { pair_accepts };

    ghost signs = { λ p words. true };

    ghost tag_of = { own_tag };

    ghost signed = { λ p words. p };

    ghost laws = { pair_laws };

    fn width(n: u8) -> usize {
        Self::TAG_PER_MEMBER * n as usize + Self::TAG_FIXED
    }

    fn owner_number(&self) -> u8 {
        self.owner
    }

    fn group_size(&self) -> u8 {
        self.group.number()
    }

    fn accept(&self, signer: u8, words: &[u8], tag: &[u8]) -> bool {
        let members = self.group.number();
        if signer > members || tag.len() != PART * members as usize {
            return false;
        }
        let at = self.owner as usize;
        let key = self.receiving[signer as usize];
        same_part(&pair_part(&key, words), &tag[PART * (at - 1)..PART * at])
    }

    fn sign(&mut self, words: &[u8], tag: &mut [u8; TAG_ROOM]) -> Result<usize, WillNotSign> {
        let members = self.group.number() as usize;
        pair_tag(&self.sending[0..members], words, tag).ok_or(WillNotSign)
    }
}
