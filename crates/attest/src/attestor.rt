// What is asked of every attestor.
ghost use Rattle.std.specs.Prelude.{◌≡◌, ℕ, ◌+◌, ◌*◌, ◌≤◌, max, Bool, List, is_ok, IfOk, if◌then◌else◌};
ghost use Rattle.attest.specs.Limits.{tag_room, overlay};
ghost use Rattle.attest.specs.Laws.{Laws};

/// The most members of a group.
pub const MAX_MEMBERS: u8 = 13;

/// Room for the tag of any attestor: 16 bytes for each member of the largest group.
pub const TAG_ROOM: usize = 16 * MAX_MEMBERS as usize;

/// The bytes of the longest words, those of a vote.
pub const WORDS_MOST: usize = 44;

/// The words will not be signed.
#[derive(Clone, Copy, Debug, PartialEq, Eq)]
pub struct WillNotSign;

/// A member's hold on a signing scheme: which triples of signer, words and tag it accepts, which words it signs, and by
/// which tag. Words are bytes: 1 and a statement (a vote), 2 and a view (a timeout), or 3, a view, a member and a value (a
/// share of the coin, signed by the dealer, whose number is 0).
pub trait Attestor {
    /// A tag for n members has `TAG_PER_MEMBER` · n + `TAG_FIXED` bytes.
    const TAG_PER_MEMBER: usize;

    const TAG_FIXED: usize;

    // the two constants, for the clauses
    ghost per_member: { ℕ };

    ghost fixed: { ℕ };

    // the number of the one that it signs for: a member, or 0 for the dealer
    ghost owner: { Self → ℕ };

    // the size of the group that its tags are for
    ghost members: { Self → ℕ };

    // whether it accepts a signer, words and a tag
    ghost accepts: { Self → ℕ → List ℕ → List ℕ → Bool };

    // whether it will sign words now
    ghost signs: { Self → List ℕ → Bool };

    // the tag that it would give for words now
    ghost tag_of: { Self → List ℕ → List ℕ };

    // the attestor once it has signed words
    ghost signed: { Self → List ℕ → Self };

    // what holds of these in every implementation
    ghost laws: { Laws per_member fixed owner members accepts signs tag_of signed };

    /// The bytes of a tag for n members.
    fn width(n: u8) -> usize
        ensures value { result ≡ per_member * n + fixed }
        ensures within { result ≤ 16 * max 4 n };

    /// The number of the one that it signs for.
    fn owner_number(&self) -> u8
        ensures { result ≡ owner self.now };

    /// The size of the group that its tags are for.
    fn group_size(&self) -> u8
        ensures { result ≡ members self.now };

    /// Whether the tag is one of this signer for these words.
    fn accept(&self, signer: u8, words: &[u8], tag: &[u8]) -> bool
        ensures { result ≡ accepts self.now signer words.now tag.now };

    /// Signs the words for its owner: writes a tag to the start of `tag` and answers its length, or refuses and changes
    /// nothing.
    fn sign(&mut self, words: &[u8], tag: &mut [u8; TAG_ROOM]) -> Result<usize, WillNotSign>
        ensures willing { is_ok result ≡ signs self.old words.now }
        ensures long { IfOk result (λ n. n ≡ per_member * members self.old + fixed) }
        ensures within { IfOk result (λ n. n ≤ tag_room) }
        ensures written { tag.new ≡ (if is_ok result then overlay tag.old (tag_of self.old words.now) else tag.old) }
        ensures state { self.new ≡ (if is_ok result then signed self.old words.now else self.old) };
}
