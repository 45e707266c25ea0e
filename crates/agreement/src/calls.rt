// The calls of a month.

// Gas that is posted for a member and a day.
#[derive(Clone, Copy, PartialEq, Eq, Debug)]
pub struct Posting {
    pub account: u32,
    pub day: u8,
    pub therms: u32,
}

#[derive(Clone, Copy, PartialEq, Eq, Debug)]
pub enum Call {
    // Adds a member; the retention is in tenths of a percent.
    Enrol { account: u32, retention: u8 },
    // Sets a member's nomination for the day and every later day.
    Nominate(Posting),
    // Sets the gas that a member used on the day.
    Read(Posting),
    // Sets the gas received for a member at the city gate on the day.
    Receive(Posting),
    // Marks a day on which the utility told the pool to stay within its nomination.
    Notify { day: u8 },
    // Ends the month.
    Close,
}
