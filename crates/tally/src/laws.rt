ghost use Rattle.tally.specs.Example.{ThirdReaches};
ghost use Rattle.tally.specs.Laws.{Laws};

use super::likeness::Item;

/// What a tally comes to over whole lists of puts.
pub fn tallies_are_lawful<T: Item>() -> u8
    ensures { Laws T.Item.above T.Item.alike }
{
    0
}

/// Of four members the third with an item alike to the others' reaches a threshold of 3, and a repeat is refused.
pub fn third_reaches<T: Item>() -> u8
    ensures { ThirdReaches T.Item.above T.Item.alike }
{
    0
}
