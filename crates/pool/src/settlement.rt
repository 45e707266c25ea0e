// What a closed month comes to: the bills of all members, in enrolment order.
ghost use Rattle.std.specs.Prelude.{◌≡◌, ℕ, ◌≤◌, length, slice_index_or, unsigned_abs};
ghost use Rattle.agreement.specs.Limits.{most_members};
ghost use Rattle.pool.specs.Bounds.{most_cents, no_bill};

use agreement::{Bill, MOST_MEMBERS};

// It is `Copy` for callers, which a fixed list is not: so its bills are an array, and their number. It has no `==`, since
// what stands past the number of bills is none of its content.
#[derive(Clone, Copy, Debug)]
pub struct Settlement {
    pub(crate) count: usize,
    pub(crate) bills: [Bill; MOST_MEMBERS],
    // A place for each member's bill.
    ghost few: { count ≤ most_members },
    ghost places: { length bills ≡ most_members },
    // No bill has more cents than can be added up.
    ghost small: { (k : ℕ) → unsigned_abs (slice_index_or bills k no_bill).cents ≤ most_cents },
}
