// What trading houses write into a block: a lot and its sacks. The ledger itself does not read it.
ghost use Rattle.std.specs.Prelude.{◌≡◌};
ghost use Rattle.walkthrough.specs.Lots.{lot_bytes};

// The bytes of a lot.
pub const LOT_BYTES: usize = 7;

#[derive(Clone, Copy)]
pub struct Lot {
    pub house: u8,
    pub number: u32,
    pub sacks: u16,
}

impl Lot {
    // The lot as a payload: house (1), number (4), sacks (2).
    pub fn payload(&self) -> [u8; LOT_BYTES]
        ensures { result ≡ lot_bytes self.now }
    {
        let [a, b, c, d] = self.number.to_be_bytes();
        let [high, low] = self.sacks.to_be_bytes();
        [self.house, a, b, c, d, high, low]
    }
}
