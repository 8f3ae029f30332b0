use super::numbers::Numbered;
use super::places::{Alike, Refused, Tally, clear, judge};
use std::process::Abort;

// A place, the number that is put there, and the answer at a threshold of 3, over five places in the order of the table.
const PUTS: [(usize, u32, Result<bool, Refused>); 12] = [
    (0, 7, Ok(false)),
    (1, 7, Ok(false)),
    // equal and lower ranks are refused, and so is a place that is not there
    (1, 7, Err(Refused::Held)),
    (1, 6, Err(Refused::Held)),
    (5, 7, Err(Refused::NoPlace)),
    // the third seven reaches, and the fourth does not again
    (2, 7, Ok(true)),
    (3, 7, Ok(false)),
    // two places move on and leave two sevens, so that another seven reaches again
    (0, 8, Ok(false)),
    (1, 8, Ok(false)),
    (4, 7, Ok(true)),
    // the third eight
    (2, 8, Ok(true)),
    (2, 8, Err(Refused::Held)),
];

fn put_all(rt: &impl Abort, places: &mut [Option<Numbered>]) {
    for (place, number, answer) in PUTS {
        let item = Numbered { number };
        assert_eq!(rt; judge(places, place, &item, 3), answer);
        let mut tally = Tally::over(places);
        assert_eq!(rt; tally.put(place, item, 3), answer);
    }
}

#[test]
fn puts(rt: HostRuntime) {
    put_all(&rt, &mut [None; 5]);
}

// Where the walk from a place on first meets the number.
fn found_at(places: &[Option<Numbered>], from: usize, number: u32) -> Option<usize> {
    let item = Numbered { number };
    let mut walk = Alike {
        places,
        item: &item,
        place: from,
    };
    walk.next().map(|(place, _)| place)
}

#[test]
fn walks(rt: HostRuntime) {
    let seven = Some(Numbered { number: 7 });
    let eight = Some(Numbered { number: 8 });
    let mut places = [None, seven, eight, None, seven];
    assert_eq!(rt; found_at(&places, 0, 7), Some(1));
    assert_eq!(rt; found_at(&places, 2, 7), Some(4));
    assert_eq!(rt; found_at(&places, 5, 7), None);
    assert_eq!(rt; found_at(&places, 3, 8), None);
    clear(&mut places);
    assert_eq!(rt; found_at(&places, 0, 7), None);
}
