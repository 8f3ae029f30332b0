// The shares that elect a view's winner.
ghost use Rattle.std.specs.Prelude.{◌≡◌, ◌<◌, ◌≤◌, ◌++◌, length, drop};
ghost use Rattle.collect.specs.Build.{places_most, share_at, kept_shares, count_at_start, written_at_start};

use crate::build::{PLACES_MOST, number_of};
use crate::items::KeptShare;
use coin::Share;
use tally::{count_alike, kept_alike};

// The share that a place keeps, as the coin takes it.
fn share_at(place: usize, kept: &KeptShare) -> Share
    requires { place < places_most }
    ensures { result ≡ share_at (place, kept.now) }
{
    Share {
        member: number_of(place),
        value: kept.value,
    }
}

// Writes the kept shares of this share's view to the start of `out`, which has room for them.
fn gather(places: &[Option<KeptShare>], share: &KeptShare, out: &mut [Share])
    requires numbers { length places.now ≤ places_most }
    requires room { length (kept_shares share.now places.now) ≤ length out.old }
    ensures { out.new ≡ kept_shares share.now places.now ++ drop (length (kept_shares share.now places.now)) out.old }
{
    for (count, (place, kept)) in kept_alike(places, share).enumerate() {
        out[count] = share_at(place, kept);
    }
}

// Writes the kept shares of this share's view to the start of `out`, by rising member, and says how many they are. Where they
// have no room, or there are more places than members have numbers, nothing is written.
pub fn kept_shares(
    places: &[Option<KeptShare>],
    share: &KeptShare,
    out: &mut [Share],
) -> Option<usize>
    ensures count { result ≡ count_at_start places.now out.old (kept_shares share.now places.now) }
    ensures shares { out.new ≡ written_at_start places.now out.old (kept_shares share.now places.now) }
{
    if places.len() > PLACES_MOST {
        return None;
    }
    let count = count_alike(places, share);
    if count > out.len() {
        return None;
    }
    gather(places, share, out);
    Some(count)
}
