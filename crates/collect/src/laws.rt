// What is built of the kept items, in the words of certificates.
ghost use Rattle.std.specs.Prelude.{◌≡◌, if◌then◌else◌};
ghost use Rattle.blocks.specs.Layout.{fits, pasted};
ghost use Rattle.collect.specs.Items.{timeout_above, timeout_alike, timeout_tail, finished_above, finished_alike, share_above, share_alike, share_tail};
ghost use Rattle.collect.specs.Laws.{ReachedIsSound, SoundIsRead, Tails, SameShares};

use crate::build::Entered;
use crate::items::{Finished, KeptShare, KeptTimeout};
use tally::{Item, tallies_are_lawful};

// Whether a timeout ranks above another, and whether they are alike.
pub fn compare_timeouts(x: &KeptTimeout, y: &KeptTimeout) -> (bool, bool)
    ensures { result ≡ (timeout_above x.now y.now, timeout_alike x.now y.now) }
{
    (x.ranks_above(y), x.is_like(y))
}

// The same of finished chains.
pub fn compare_finished(x: &Finished, y: &Finished) -> (bool, bool)
    ensures { result ≡ (finished_above x.now y.now, finished_alike x.now y.now) }
{
    (x.ranks_above(y), x.is_like(y))
}

// The same of shares.
pub fn compare_shares(x: &KeptShare, y: &KeptShare) -> (bool, bool)
    ensures { result ≡ (share_above x.now y.now, share_alike x.now y.now) }
{
    (x.ranks_above(y), x.is_like(y))
}

// Writes what follows the member in the entry of a timeout, if it has room.
pub fn put_timeout_tail(x: &KeptTimeout, width: usize, out: &mut [u8], at: usize) -> usize
    ensures { out.new ≡ (if fits out.old at (timeout_tail width x.now) then pasted out.old at (timeout_tail width x.now) else out.old) }
{
    x.put_tail(width, out, at)
}

// The same of a share.
pub fn put_share_tail(x: &KeptShare, width: usize, out: &mut [u8], at: usize) -> usize
    ensures { out.new ≡ (if fits out.old at (share_tail width x.now) then pasted out.old at (share_tail width x.now) else out.old) }
{
    x.put_tail(width, out, at)
}

// At a threshold just as many entries are built, of rising members of the group.
pub fn reached_is_sound<T: Item>() -> u8
    ensures { ReachedIsSound T.Item.above T.Item.alike }
{
    tallies_are_lawful::<T>()
}

// Such entries are read back from what is written, in the form that a reader asks for.
pub fn sound_is_read() -> u8
    ensures { SoundIsRead }
{
    0
}

// A tag is kept whole, and what follows the member in an entry is as long as the form says.
pub fn tails_are_wide() -> u8
    ensures { Tails }
{
    0
}

// The shares to elect from are those of the coin certificate.
pub fn shares_are_the_same() -> u8
    ensures { SameShares }
{
    tallies_are_lawful::<KeptShare>()
}
