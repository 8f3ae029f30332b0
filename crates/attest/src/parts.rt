// Tags under pair keys: one part for each receiver, under the key that its signer shares with that receiver.
ghost use Rattle.std.specs.Prelude.{◌≡◌, ◌*◌, length, is_some, if◌then◌else◌, Some, None, nat_le};
ghost use Rattle.attest.specs.Limits.{overlay};
ghost use Rattle.attest.specs.Parts.{part_bytes, pair_part, pair_tag};

use digest::hmac;

/// The key that a signer and a receiver share.
pub type Key = [u8; 32];

/// The bytes of one receiver's part of a tag.
pub const PART: usize = 16;

/// The part of a tag for the receiver with which the signer shares the key: the first bytes of HMAC-SHA-256 of the words.
pub(crate) fn pair_part(key: &Key, words: &[u8]) -> [u8; PART]
    ensures { result ≡ pair_part words.now key.now }
{
    let code = hmac(key, words);
    *code.first_chunk().unwrap()
}

/// Writes the tag for the words, under the keys that a signer shares with the receivers 1, 2 and on, to the start of `out`
/// and answers its length; or none where `out` is too short, and nothing is written. So the dealer signs too.
pub fn pair_tag(keys: &[Key], words: &[u8], out: &mut [u8]) -> Option<usize>
    ensures answer { result ≡ (if nat_le (part_bytes * length keys.now) (length out.old) then Some (part_bytes * length keys.now) else None) }
    ensures written { out.new ≡ (if is_some result then overlay out.old (pair_tag keys.now words.now) else out.old) }
{
    if keys.len() > out.len() / PART {
        return None;
    }
    for (i, key) in keys.iter().enumerate() {
        out[PART * i..PART * i + PART].copy_from_slice(&pair_part(key, words));
    }
    Some(PART * keys.len())
}
