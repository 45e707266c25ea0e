// The limits of a pool's month; specs/Limits.antt has the same figures.

// The members of a full pool.
pub const MOST_MEMBERS: usize = 40;

// The highest retention, in tenths of a percent.
pub const MOST_RETENTION: u8 = 50;

// The most gas that is posted for one member and day.
pub const MOST_THERMS: u32 = 50_000;
