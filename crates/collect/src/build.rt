// Certificates, built of the items that a tally keeps.
ghost use Rattle.std.specs.Prelude.{◌≡◌, ℕ, ◌+◌, ◌<◌, ◌≤◌, List, ◌∷◌, length, take, Some, None, Option, if◌then◌else◌, nat_le};
ghost use Rattle.attest.specs.Limits.{tag_room};
ghost use Rattle.blocks.specs.Layout.{fits, pasted};
ghost use Rattle.collect.specs.Items.{tail_of};
ghost use Rattle.collect.specs.Build.{places_most, tail_most, built_bytes, certificate_of, end_at, written_at, count_at_start, written_at_start};

use crate::items::{KeptShare, KeptTimeout, KeptVote};
use attest::attestor::TAG_ROOM;
use blocks::layout::put;
use tally::{Item, count_alike, kept_alike};

// The most places: a member's number is its place + 1 and has one byte.
pub(crate) const PLACES_MOST: usize = 255;

// An item that adds an entry to a certificate: its member's number and, after it, a tail.
pub trait Entered: Item {
    // the tail, with tags of `width` bytes
    ghost tail: { ℕ → Self → List ℕ };

    // The bytes of the tail.
    fn tail_length(&self, width: usize) -> usize
        ensures value { result ≡ length (tail width self.now) }
        ensures most { result ≤ tail_most };

    // Writes the tail at a place, as `put` does.
    fn put_tail(&self, width: usize, out: &mut [u8], at: usize) -> usize
        ensures bytes { out.new ≡ (if fits out.old at (tail width self.now) then pasted out.old at (tail width self.now) else out.old) }
        ensures end { result ≡ (if fits out.old at (tail width self.now) then at + length (tail width self.now) else at) };
}

// An item whose tail is its value, if it has one, and its tag.
pub trait Tagged: Item {
    ghost value: { Self → Option ℕ };

    ghost tag: { Self → List ℕ };

    fn value(&self) -> Option<u16>
        ensures { result ≡ value self.now };

    fn tag(&self) -> &[u8; TAG_ROOM]
        ensures { result.now ≡ tag self.now };
}

impl<T: Tagged> Entered for T {
    ghost tail = { tail_of T.value T.tag };

    fn tail_length(&self, width: usize) -> usize {
        self.value().map_or(0, |_| 2) + start_of(self.tag(), width).len()
    }

    fn put_tail(&self, width: usize, out: &mut [u8], at: usize) -> usize {
        if !has_room(out, at, self.tail_length(width)) {
            return at;
        }
        let mut end = at;
        if let Some(value) = self.value() {
            end = put(out, at, &value.to_be_bytes());
        }
        put(out, end, start_of(self.tag(), width))
    }
}

impl Tagged for KeptVote {
    ghost value = { λ _. None };

    ghost tag = { λ x. x.tag };

    fn value(&self) -> Option<u16> {
        None
    }

    fn tag(&self) -> &[u8; TAG_ROOM] {
        &self.tag
    }
}

impl Tagged for KeptTimeout {
    ghost value = { λ _. None };

    ghost tag = { λ x. x.tag };

    fn value(&self) -> Option<u16> {
        None
    }

    fn tag(&self) -> &[u8; TAG_ROOM] {
        &self.tag
    }
}

impl Tagged for KeptShare {
    ghost value = { λ x. Some x.value };

    ghost tag = { λ x. x.tag };

    fn value(&self) -> Option<u16> {
        Some(self.value)
    }

    fn tag(&self) -> &[u8; TAG_ROOM] {
        &self.tag
    }
}

// The first `width` bytes of a kept tag; all of it, where it is not so long.
fn start_of(tag: &[u8; TAG_ROOM], width: usize) -> &[u8]
    ensures start { result.now ≡ take width tag.now }
    ensures most { length result.now ≤ tag_room }
{
    &tag[..width.min(TAG_ROOM)]
}

// The number of the member that has the place.
pub(crate) fn number_of(place: usize) -> u8
    requires { place < places_most }
    ensures { result ≡ place + 1 }
{
    (place + 1) as u8
}

// Writes the entry of an item that a place keeps to a place of the buffer, and says where it ends.
fn put_entry<T: Entered>(place: usize, kept: &T, width: usize, out: &mut [u8], at: usize) -> usize
    requires number { place < places_most }
    requires room { at + (1 + length (T.Entered.tail width kept.now)) ≤ length out.old }
    ensures bytes { out.new ≡ pasted out.old at ((place + 1) ∷ T.Entered.tail width kept.now) }
    ensures end { result ≡ at + (1 + length (T.Entered.tail width kept.now)) }
{
    let end = put(out, at, &[number_of(place)]);
    kept.put_tail(width, out, end)
}

// The bytes of the entries of the kept items that are alike to this one.
fn entries_length<T: Entered>(places: &[Option<T>], item: &T, width: usize) -> usize
    requires { length places.now ≤ places_most }
    ensures { result ≡ length (built_bytes T.Item.alike (T.Entered.tail width) item.now places.now) }
{
    kept_alike(places, item)
        .map(|(_, kept)| 1 + kept.tail_length(width))
        .sum()
}

// Whether so many bytes have room at a place.
fn has_room(out: &[u8], at: usize, bytes: usize) -> bool
    ensures { result ≡ nat_le (at + bytes) (length out.now) }
{
    out.get(at..).is_some_and(|rest| bytes <= rest.len())
}

// Writes the entries at a place where they have room, and says where they end.
fn enter_all<T: Entered>(
    places: &[Option<T>],
    item: &T,
    width: usize,
    out: &mut [u8],
    at: usize,
) -> usize
    requires numbers { length places.now ≤ places_most }
    requires room { at + length (built_bytes T.Item.alike (T.Entered.tail width) item.now places.now) ≤ length out.old }
    ensures end { result ≡ at + length (built_bytes T.Item.alike (T.Entered.tail width) item.now places.now) }
    ensures bytes { out.new ≡ pasted out.old at (built_bytes T.Item.alike (T.Entered.tail width) item.now places.now) }
{
    let mut end = at;
    for (place, kept) in kept_alike(places, item) {
        end = put_entry(place, kept, width, out, end);
    }
    end
}

// Writes an entry for each kept item that is alike to this one, by rising member, and says where they end. Where they have no
// room after the place, or there are more places than members have numbers, nothing is written.
pub fn write_entries<T: Entered>(
    places: &[Option<T>],
    item: &T,
    width: usize,
    out: &mut [u8],
    at: usize,
) -> Option<usize>
    ensures end { result ≡ end_at places.now out.old at (built_bytes T.Item.alike (T.Entered.tail width) item.now places.now) }
    ensures bytes { out.new ≡ written_at places.now out.old at (built_bytes T.Item.alike (T.Entered.tail width) item.now places.now) }
{
    if places.len() > PLACES_MOST {
        return None;
    }
    let bytes = entries_length(places, item, width);
    if !has_room(out, at, bytes) {
        return None;
    }
    Some(enter_all(places, item, width, out, at))
}

// Writes the certificate of the kept votes that say the same as this one to the start of the buffer, and says how long it is.
// Where it has no room, or there are more places than members have numbers, nothing is written.
pub fn write_certificate(
    places: &[Option<KeptVote>],
    vote: &KeptVote,
    width: usize,
    out: &mut [u8],
) -> Option<usize>
    ensures end { result ≡ count_at_start places.now out.old (certificate_of width vote.now places.now) }
    ensures bytes { out.new ≡ written_at_start places.now out.old (certificate_of width vote.now places.now) }
{
    if places.len() > PLACES_MOST {
        return None;
    }
    let statement = vote.statement.bytes();
    let bytes = entries_length(places, vote, width);
    if !has_room(out, statement.len() + 1, bytes) {
        return None;
    }
    let at = put(out, 0, &statement);
    let at = put(out, at, &[count_alike(places, vote) as u8]);
    Some(enter_all(places, vote, width, out, at))
}
