// The limits of the formats and of what is lent, in one place.

// The last view.
pub const LAST_VIEW: u32 = 1_023;

// The last round of a block.
pub const LAST_ROUND: u32 = 1_000_000;

// The rounds in a row that one member leads.
pub const ROUNDS_LED: u32 = 4;

// The bytes of an id.
pub const ID_BYTES: usize = 32;

// The bytes of a block's head.
pub const HEAD_BYTES: usize = 45;

// The most bytes of a block's payload.
pub const PAYLOAD_MOST: usize = 192;

// The bytes of a statement.
pub const STATEMENT_BYTES: usize = 43;
