// The cells of a pool book. The member at a place, from 0, has the figures of its days in a row of cells, one for
// each day of the longest month.
ghost use Rattle.std.specs.Prelude.{◌≡◌, ◌<◌, ◌≤◌, ◌==◌, length, position, slice_index_or};
ghost use Rattle.agreement.specs.Book.{opened};
ghost use Rattle.rules.specs.Days.{most_days};
ghost use Rattle.agreement.specs.Limits.{most_members};
ghost use Rattle.agreement.specs.Sizes.{SmallMember};
ghost use Rattle.pool.specs.Limits.{WithinLimits};
ghost use Rattle.pool.specs.Members.{nobody};

use crate::row::Row;
use agreement::{Day, Days, MOST_MEMBERS, Status};
use arrayvec::ArrayVec;
use std::marker::Model;

// The cells of a member.
pub(crate) const ROW: usize = 31;

// The cells of all members.
const CELLS: usize = 1240;

// A member's account number, and its retention in tenths of a percent.
#[derive(Clone, Copy, Default, PartialEq, Eq, Debug)]
pub(crate) struct Enrolled {
    pub(crate) account: u32,
    pub(crate) retention: u8,
}

// All day cells are one array of a fixed size, a row for each place of a member, set up at once with zeros; so an
// enrolment writes none of them.
#[derive(Drop)]
pub(crate) struct Table {
    pub(crate) days: Days,
    pub(crate) status: Status,
    pub(crate) members: ArrayVec<Enrolled, MOST_MEMBERS>,
    pub(crate) cells: [Day; CELLS],
    pub(crate) notices: [bool; ROW],
}

// Clauses see the plain book. That it is within its limits each call says besides, since a model does not show its
// invariant.
impl Model for Table {
    ghost use Rattle.agreement.specs.Book.{Book};

    ghost Value = { Book };

    ghost use Rattle.pool.specs.Contents.{book_of, Sound};

    ghost view = { book_of };

    ghost invariant = { Sound };
}

impl Table {
    // An open table with no member.
    pub(crate) fn new(days: Days) -> Self
        ensures book { result ≡ opened days.count }
        ensures limits { WithinLimits result }
    {
        Table {
            days,
            status: Status::Open,
            members: ArrayVec::new(),
            cells: [Day::BLANK; CELLS],
            notices: [false; ROW],
        }
    }

    // The number of members.
    pub(crate) fn count(&self) -> usize
        ensures same { result ≡ length self.now.members }
        ensures limits { WithinLimits self.now }
    {
        self.members.len()
    }

    // The number of days of the month.
    pub(crate) fn days(&self) -> u8
        ensures same { result ≡ self.now.days }
        ensures short { result ≤ most_days }
    {
        self.days.count()
    }

    // The days of the member at a place.
    pub(crate) fn row(&self, place: usize) -> Row<'_>
        requires { place < length self.now.members }
        ensures same { result ≡ slice_index_or self.now.members place nobody }
        ensures whole { length result.days ≡ self.now.days }
        ensures small { SmallMember result }
    {
        let member = self.members[place];
        let first = place * ROW;
        Row {
            account: member.account,
            retention: member.retention,
            days: &self.cells[first..first + self.days.count() as usize],
        }
    }
}
