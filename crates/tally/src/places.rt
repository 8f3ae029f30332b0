ghost use Rattle.std.specs.Prelude.{◌≡◌, ◌<◌, ◌≤◌, true, length, replicate, All, Some, None, slice_index_or, slice_set};
ghost use Rattle.std.specs.Iterator.{YieldsFirstBy, item_count};
ghost use Rattle.std.specs.Option.{option_copied};
ghost use Rattle.tally.specs.Alike.{still_alike};
ghost use Rattle.tally.specs.Walk.{if_alike, kept_alike, weighed, weight_of};
ghost use Rattle.tally.specs.Puts.{takes, put_to, judged};

use super::likeness::Item;

/// Why a put is refused.
#[derive(Clone, Copy, Debug, PartialEq, Eq)]
pub enum Refused {
    /// There is no such place.
    NoPlace,
    /// The place holds an item of equal or higher rank.
    Held,
}

// What a place keeps, if that is alike to the item.
fn if_alike<'a, T: Item>(place: &'a Option<T>, item: &T) -> Option<&'a T>
    ensures { option_copied result ≡ if_alike T.Item.alike item.now place.now }
{
    place.as_ref().filter(|kept| kept.is_like(item))
}

/// The places that keep an item alike to a given one, each with the item that it keeps, by rising place.
#[derive(Drop)]
pub struct Alike<'a, T> {
    pub places: &'a [Option<T>],
    pub item: &'a T,
    /// Where the walk goes on.
    pub place: usize,
}

impl<'a, T: Item> Iterator for Alike<'a, T> {
    ghost use Rattle.tally.specs.Alike.{place_and_item};

    type Item = (usize, &'a T);

    ghost next_gives = { YieldsFirstBy place_and_item (still_alike T.Item.alike) };

    ghost remaining = { item_count (still_alike T.Item.alike) };

    fn next(&mut self) -> Option<(usize, &'a T)> {
        for place in self.place..self.places.len() {
            if let Some(kept) = if_alike(&self.places[place], self.item) {
                self.place = place + 1;
                return Some((place, kept));
            }
        }
        None
    }
}

/// The places that keep an item alike to this one.
pub fn kept_alike<'a, T: Item>(places: &'a [Option<T>], item: &'a T) -> Alike<'a, T>
    ensures walk { still_alike T.Item.alike result ≡ kept_alike T.Item.alike item.now places.now 0 }
    ensures within { All (λ met. met.0 < length places.now) (still_alike T.Item.alike result) }
    ensures most { length (still_alike T.Item.alike result) ≤ length places.now }
{
    Alike {
        places,
        item,
        place: 0,
    }
}

/// How many places keep an item alike to this one.
pub fn count_alike<T: Item>(places: &[Option<T>], item: &T) -> usize
    ensures count { result ≡ length (kept_alike T.Item.alike item.now places.now 0) }
    ensures most { result ≤ length places.now }
{
    kept_alike(places, item).count()
}

// How many places would keep an item alike to this one, were it put into a place that takes it.
fn count_with<T: Item>(places: &[Option<T>], place: usize, item: &T) -> usize
    requires there { place < length places.now }
    requires taken { takes T.Item.above (slice_index_or places.now place None) item.now ≡ true }
    ensures { result ≡ weighed T.Item.alike item.now weight_of (slice_set places.now place (Some item.now)) }
{
    count_alike(places, item) + 1
}

// Whether a place is empty or holds an item that this one ranks above.
fn takes_item<T: Item>(place: &Option<T>, item: &T) -> bool
    ensures { result ≡ takes T.Item.above place.now item.now }
{
    place.as_ref().is_none_or(|kept| item.ranks_above(kept))
}

/// What a put of the item would answer. Nothing is changed.
pub fn judge<T: Item>(
    places: &[Option<T>],
    place: usize,
    item: &T,
    threshold: usize,
) -> Result<bool, Refused>
    ensures { result ≡ judged T.Item.above T.Item.alike places.now place item.now threshold }
{
    let held = places.get(place).ok_or(Refused::NoPlace)?;
    if !takes_item(held, item) {
        return Err(Refused::Held);
    }
    Ok(count_with(places, place, item) == threshold)
}

/// Empties every place.
pub fn clear<T: Item>(places: &mut [Option<T>])
    ensures { places.new ≡ replicate (length places.old) None }
{
    places.fill(None);
}

/// The lent places, one for each member.
#[derive(Drop)]
pub struct Tally<'a, T> {
    pub places: &'a mut [Option<T>],
}

impl<'a, T: Item> Tally<'a, T> {
    pub fn over(places: &'a mut [Option<T>]) -> Self
        ensures items { result.places.now ≡ places.old }
        ensures lent { result.places.ghost_name ≡ places.entry.ghost_name }
    {
        Tally { places }
    }

    /// Keeps the item in the place, unless that is refused, and says whether the kept items alike to it are then exactly as many as the threshold.
    pub fn put(&mut self, place: usize, item: T, threshold: usize) -> Result<bool, Refused>
        ensures lent { self.new.places.ghost_name ≡ self.old.places.ghost_name }
        ensures answer { result ≡ judged T.Item.above T.Item.alike self.old.places.now place item threshold }
        ensures kept { self.new.places.now ≡ put_to T.Item.above self.old.places.now place item }
    {
        let places = &mut *self.places;
        let reached = judge(places, place, &item, threshold)?;
        places[place] = Some(item);
        Ok(reached)
    }
}
