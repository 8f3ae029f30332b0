// The polynomial coin: a view's values lie on one polynomial of degree at most f modulo 257, and its value at 0 elects the winner.
ghost use Rattle.std.specs.Prelude.{◌≡◌, ◌+◌, ◌*◌, ◌%◌, ◌<◌, ◌≤◌, ◌≢◌, length, slice_index};
ghost use Rattle.coin.specs.Shares.{Apart};
ghost use Rattle.coin.specs.Polynomials.{eval, Deals, DealingsAreSound, Sound, winner_of};
ghost use Rattle.coin.specs.Interpolation.{inverses, Inverse, reduce, from_slope, at_zero, elected_by};
ghost use Rattle.coin.specs.Members.{someone, member_among};
ghost use Rattle.coin.specs.Newton;

use crate::Coin;
use crate::shares::{ElectError, Share, examine, is_member, member_of, share_count};

const MODULUS: u32 = 257;

// 256 is -1 modulo 257.
const MINUS: u32 = 256;

// The greatest residue modulo 257.
const GREATEST: u16 = 256;

// f + 1 where n is 255.
const MOST_SHARES: usize = 85;

// The inverse of each of 1 to 256 modulo 257.
const INVERSES: [u16; 256] = [
    1, 129, 86, 193, 103, 43, 147, 225, 200, 180, 187, 150, 178, 202, 120, 241, 121, 100, 230, 90,
    49, 222, 190, 75, 72, 89, 238, 101, 195, 60, 199, 249, 148, 189, 235, 50, 132, 115, 145, 45,
    163, 153, 6, 111, 40, 95, 175, 166, 21, 36, 126, 173, 97, 119, 243, 179, 248, 226, 61, 30, 59,
    228, 102, 253, 87, 74, 234, 223, 149, 246, 181, 25, 169, 66, 24, 186, 247, 201, 244, 151, 165,
    210, 96, 205, 127, 3, 65, 184, 26, 20, 209, 176, 152, 216, 46, 83, 53, 139, 135, 18, 28, 63, 5,
    215, 164, 177, 245, 188, 224, 250, 44, 218, 116, 124, 38, 113, 134, 159, 54, 15, 17, 158, 140,
    114, 220, 51, 85, 255, 2, 172, 206, 37, 143, 117, 99, 240, 242, 203, 98, 123, 144, 219, 133,
    141, 39, 213, 7, 33, 69, 12, 80, 93, 42, 252, 194, 229, 239, 122, 118, 204, 174, 211, 41, 105,
    81, 48, 237, 231, 73, 192, 254, 130, 52, 161, 47, 92, 106, 13, 56, 10, 71, 233, 191, 88, 232,
    76, 11, 108, 34, 23, 183, 170, 4, 155, 29, 198, 227, 196, 31, 9, 78, 14, 138, 160, 84, 131,
    221, 236, 91, 82, 162, 217, 146, 251, 104, 94, 212, 112, 142, 125, 207, 22, 68, 109, 8, 58,
    197, 62, 156, 19, 168, 185, 182, 67, 35, 208, 167, 27, 157, 136, 16, 137, 55, 79, 107, 70, 77,
    57, 32, 110, 214, 154, 64, 171, 128, 256,
];

/// The coin of shared polynomials.
#[derive(Clone, Copy, Debug, PartialEq, Eq)]
pub struct Polynomial;

// The inverse of place + 1.
fn table_entry(place: usize) -> u16
    requires { place < 256 }
    ensures { result ≡ slice_index inverses place }
{
    INVERSES[place]
}

// The inverse of a modulo 257.
fn inverse(a: u32) -> u32
    requires { (0 < a) × (a < 257) }
    ensures { Inverse a result }
{
    table_entry(a as usize - 1) as u32
}

// The slope from `first` to `other`, as `other`'s share of a polynomial of one degree less.
fn reduced(first: Share, other: Share) -> Share
    requires { other.member ≢ first.member }
    ensures { result ≡ reduce first other }
{
    let rise = (other.value as u32 + MINUS * first.value as u32) % MODULUS;
    let run = (other.member as u32 + MINUS * first.member as u32) % MODULUS;
    Share {
        member: other.member,
        value: (rise * inverse(run) % MODULUS) as u16,
    }
}

// The value at 0 of the polynomial through `first` whose slopes from there have the value `slope` at 0.
fn from_slope(first: Share, slope: u32) -> u32
    requires { slope < 257 }
    ensures is { result ≡ from_slope first slope }
    ensures below { result < 257 }
{
    (first.value as u32 + MINUS * (first.member as u32 * slope)) % MODULUS
}

// The value at 0 of the polynomial through the points, by Newton's divided differences.
fn value_at_zero(points: &mut [Share]) -> u32
    requires { Apart points.old }
    ensures is { result ≡ at_zero (length points.old) points.old }
    ensures below { result < 257 }
{
    let [first, rest @ ..] = points else {
        return 0;
    };
    let first = *first;
    for other in rest.iter_mut() {
        *other = reduced(first, *other);
    }
    let slope = value_at_zero(rest);
    from_slope(first, slope)
}

// The value at 0 of the polynomial through the shares.
fn secret_of(shares: &[Share]) -> u32
    requires few { length shares.now ≤ 85 }
    requires apart { Apart shares.now }
    ensures { result ≡ at_zero (length shares.now) shares.now }
{
    let mut points = [Share {
        member: 0,
        value: 0,
    }; MOST_SHARES];
    let used = &mut points[..shares.len()];
    used.copy_from_slice(shares);
    value_at_zero(used)
}

impl Coin for Polynomial {
    ghost greatest = { λ _. 256 };

    ghost sound = { λ _ n d. Sound n d };

    ghost winner = { λ _ n d s view. winner_of n d s view };

    ghost elected = { λ _ n shares. elected_by n shares };

    ghost winners = { λ coin n d s view some. member_among n _ some };

    ghost among = { λ coin n shares formed. member_among n _ (someone n 256 shares formed) };

    ghost elects = { λ coin n d s view shares small formed dealt. Newton.elects n d s view shares small formed dealt };

    fn greatest_value(&self) -> u16 {
        GREATEST
    }

    fn elect(&self, n: u8, shares: &[Share]) -> Result<u8, ElectError> {
        examine(n, self.greatest_value(), shares)?;
        Ok(member_of(n, secret_of(shares)))
    }
}

// One step of Horner's rule.
fn next_value(constant: u16, x: u8, higher: u16) -> u16
    ensures { result ≡ (constant + x * higher) % 257 }
{
    ((constant as u32 + x as u32 * higher as u32) % MODULUS) as u16
}

// The value at x modulo 257 of the polynomial with these coefficients, the constant first.
fn value_at(coefficients: &[u16], x: u8) -> u16
    ensures { result ≡ eval coefficients.now x % 257 }
{
    coefficients
        .iter()
        .rev()
        .fold(0, |higher, constant| next_value(*constant, x, higher))
}

/// A member's value in one view, dealt by the polynomial with these coefficients, the constant first. None where they are not
/// f + 1 numbers up to 256, or the member is not one of 1 to n.
pub fn dealt(n: u8, coefficients: &[u16], member: u8) -> Option<u16>
    ensures { Deals n coefficients.now member result }
{
    let fits = coefficients.len() == share_count(n) as usize
        && is_member(n, member)
        && coefficients.iter().all(|value| *value <= GREATEST);
    fits.then(|| value_at(coefficients, member))
}

/// Values of `dealt`, from one polynomial for each view, make a sound dealing.
pub fn dealings_are_sound() -> u8
    ensures { DealingsAreSound }
{
    0
}
