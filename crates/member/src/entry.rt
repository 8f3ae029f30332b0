// Reading the committed entries.
ghost use Rattle.std.specs.Prelude.{◌≡◌};
ghost use Rattle.member.specs.Entry.{entry};

use crate::state::Member;
use crate::types::Refusal;
use table::committed::entry;
use table::held::Held;
use table::places::block_at;

impl Member {
    // The committed block of this number, from 1 on; none at 0 and past the last.
    pub fn entry(&self, table: &[Held], number: u32) -> Result<Option<Held>, Refusal>
        ensures { result ≡ entry self.now table.now number }
    {
        if table.len() != self.site.places {
            return Err(Refusal::Sizes);
        }
        Ok(entry(table, self.chain.last, number).map(|place| *block_at(table, place)))
    }
}
