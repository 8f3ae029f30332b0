// HMAC-SHA-256: a tag for a text under a key.
ghost use Rattle.std.specs.Prelude.{◌≡◌, ◌≤◌, map, length};
ghost use Rattle.digest.specs.Hmac.{masked, filled, keyed, nested, authentication};

use super::hasher::place;
use super::{sha256, sha256_of_two};

/// HMAC-SHA-256 of a text under a key of any length.
pub fn hmac(key: &[u8], text: &[u8]) -> [u8; 32]
    ensures { result ≡ authentication key.now text.now }
{
    let block = key_block(key);
    nested_digest(block, text)
}

// The key as one block; a longer key is hashed first.
fn key_block(key: &[u8]) -> [u8; 64]
    ensures { result ≡ keyed key.now }
{
    if key.len() <= 64 {
        filled_block(key)
    } else {
        filled_block(&sha256(key))
    }
}

// The bytes, and zeros after them.
fn filled_block(bytes: &[u8]) -> [u8; 64]
    requires { length bytes.now ≤ 64 }
    ensures { result ≡ filled bytes.now }
{
    let mut block = [0; 64];
    place(&mut block, 0, bytes);
    block
}

// The digest of the text behind the one mask of the block, digested again behind the other.
fn nested_digest(block: [u8; 64], text: &[u8]) -> [u8; 32]
    ensures { result ≡ nested block text.now }
{
    let inner = masked_block(block, 0x36);
    let outer = masked_block(block, 0x5c);
    let within = sha256_of_two(&inner, text);
    sha256_of_two(&outer, &within)
}

// Each byte of the block exclusive-or the mask.
fn masked_block(mut block: [u8; 64], mask: u8) -> [u8; 64]
    ensures { result ≡ map (masked mask) block }
{
    for byte in &mut block {
        *byte ^= mask;
    }
    block
}
