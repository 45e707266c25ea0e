// One day of one member, in therms: the nomination, what the meter gave, if it was read, and the receipt.
ghost use Rattle.std.specs.Prelude.{◌≡◌};
ghost use Rattle.agreement.specs.Book.{is_unread, therms_of};

#[derive(Clone, Copy, PartialEq, Eq, Debug)]
pub struct Day {
    pub nominated: u32,
    pub reading: Option<u32>,
    pub received: u32,
}

impl Day {
    // A day on which nothing is posted yet.
    pub const BLANK: Day = Day {
        nominated: 0,
        reading: None,
        received: 0,
    };

    pub fn is_unread(self) -> bool
        ensures { result ≡ is_unread self.reading }
    {
        self.reading.is_none()
    }

    // The gas that the day counts as used.
    pub fn used(self) -> u32
        ensures { result ≡ therms_of self.reading }
    {
        self.reading.unwrap_or(0)
    }
}
