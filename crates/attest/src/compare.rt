// A comparison whose time does not depend on where the bytes differ.
ghost use Rattle.std.specs.Prelude.{◌≡◌, length, map, fold, bit_or, bit_xor};
ghost use Rattle.std.specs.List.{zip};
ghost use Rattle.std.specs.Str.{bytes_eq};
ghost use Rattle.attest.specs.Parts.{part_bytes};

use crate::parts::PART;

// The bits in which any two bytes of one place differ.
fn differences(part: &[u8], right: &[u8]) -> u8
    ensures { result ≡ fold bit_or 0 (map (λ p. bit_xor p.0 p.1) (zip part.now right.now)) }
{
    part.iter()
        .zip(right)
        .map(|(a, b)| *a ^ *b)
        .fold(0, |all, bits| all | bits)
}

/// Whether the part of a tag is the right one. It looks at all bytes, and tests once.
pub(crate) fn same_part(right: &[u8; PART], part: &[u8]) -> bool
    requires { length part.now ≡ part_bytes }
    ensures { result ≡ bytes_eq part.now right.now }
{
    differences(part, right) == 0
}
