// Records kept by number, in rising order, at the front of memory that the caller lends.
ghost use Rattle.std.specs.Prelude.{◌≡◌, ℕ, ◌≤◌, length, take};
ghost use Rattle.billing.specs.Order.{Rising, Rising_prop};

// A record that has a number.
pub trait Numbered: Copy {
    // the number
    ghost numbered: { Self → ℕ };

    fn number(&self) -> u32
        ensures { result ≡ numbered self.now };
}

// The memory is the lender's and of any size, so how many records are kept stands beside it.
#[derive(Drop)]
pub struct Keeping<'a, R: Numbered> {
    pub(crate) slots: &'a mut [R],
    pub(crate) len: usize,
    ghost fits: { len ≤ length slots.now },
    pub ghost rises: { Rising R.numbered (take len slots.now) } by { Rising_prop R.numbered (take len slots.now) },
}
