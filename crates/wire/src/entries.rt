// The entries of certificates, as bytes.
ghost use Rattle.std.specs.Prelude.{◌≡◌, ◌==◌, ◌&&◌, slice_index};
ghost use Rattle.wire.specs.Entries.{entry_formed, are_entries};

// What the entries of a certificate must be.
#[derive(Clone, Copy)]
pub(crate) struct Wanted {
    // the group's size
    pub members: u8,
    // the greatest value, where a value follows the signer
    pub limit: Option<u16>,
    // how many bytes follow the signer
    pub wide: u32,
    // how many entries there are
    pub count: u8,
}

// The byte at a place, and 0 past the end.
#[inline(always)]
fn byte_at(bytes: &[u8], at: usize) -> u8
    ensures { result ≡ slice_index bytes.now at }
{
    bytes.get(at).copied().unwrap_or(0)
}

impl Wanted {
    // Whether an entry is of a signer above `last` and up to n, and its value within the limit.
    #[inline(always)]
    fn entry_formed(&self, last: u8, entry: &[u8]) -> bool
        ensures { result ≡ entry_formed self.now.members self.now.limit last entry.now }
    {
        let signer = byte_at(entry, 0);
        let value = u16::from_be_bytes([byte_at(entry, 1), byte_at(entry, 2)]);
        last < signer && signer <= self.members && self.limit.is_none_or(|most| value <= most)
    }

    // Whether the bytes are as many entries as are wanted, their signers rising.
    #[inline(always)]
    fn are_entries(&self, bytes: &[u8]) -> bool
        ensures { result ≡ are_entries self.now.members self.now.limit self.now.wide self.now.count bytes.now }
    {
        let long = 1 + self.wide as usize;
        if bytes.len() != self.count as usize * long {
            return false;
        }
        let mut last = 0;
        for entry in bytes.chunks_exact(long) {
            if !self.entry_formed(last, entry) {
                return false;
            }
            last = byte_at(entry, 0);
        }
        true
    }

    // Whether the count is the one that is wanted, and the bytes after it are the entries.
    #[inline(always)]
    pub(crate) fn met_by(&self, count: u8, bytes: &[u8]) -> bool
        ensures { result ≡ (count == self.now.count && are_entries self.now.members self.now.limit self.now.wide self.now.count bytes.now) }
    {
        count == self.count && self.are_entries(bytes)
    }
}
