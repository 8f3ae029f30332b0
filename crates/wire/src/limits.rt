// The sizes of what holds messages, in one place.

// The bytes of the largest certificate: 13 members, tags of 208 bytes.
pub const CERTIFICATE_MOST: usize = 1_925;

// The bytes of the outgoing buffer.
pub const OUTGOING_BYTES: usize = 2_200;
