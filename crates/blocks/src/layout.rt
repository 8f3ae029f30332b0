// Fields that are written one after another into a buffer.
ghost use Rattle.std.specs.Prelude.{◌≡◌, ◌+◌, length, if◌then◌else◌};
ghost use Rattle.blocks.specs.Layout.{fits, pasted};

// Writes the field at a place and says where it ends. Where it has no room nothing is written, and the place is given back.
pub fn put(out: &mut [u8], at: usize, field: &[u8]) -> usize
    ensures bytes { out.new ≡ (if fits out.old at field.now then pasted out.old at field.now else out.old) }
    ensures end { result ≡ (if fits out.old at field.now then at + length field.now else at) }
{
    if field.len() > out.len() || at > out.len() - field.len() {
        return at;
    }
    let end = at + field.len();
    out[at..end].copy_from_slice(field);
    end
}
