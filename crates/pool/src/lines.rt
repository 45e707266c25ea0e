// The lines that fix the charges of a month: what each schedule answers on the pool's total gas.
ghost use Rattle.std.specs.Prelude.{◌≡◌, ℕ, ◌≤◌, length};
ghost use Rattle.agreement.specs.Charges.{noticed};
ghost use Rattle.rules.specs.Days.{most_days};
ghost use Rattle.pool.specs.Fixing.{Fixes, Limited, fixed_on, lines_of, terms_of};

use crate::book::PoolBook;
use crate::table::{ROW, Table};
use schedule::{Line, Schedule};

// The lines of the balancing charge and of the overrun charge of a day.
#[derive(Clone, Copy, PartialEq, Eq, Debug)]
pub(crate) struct DayLines {
    pub(crate) balancing: Line,
    pub(crate) overrun: Line,
}

// The line of the cash-out, and the lines of each day. That they are within the limits is asked beside them, as it
// depends on the number of days, which they do not know.
// There are lines for each day of the longest month, as there are cells in a row.
#[derive(Clone, Copy, PartialEq, Eq, Debug)]
pub(crate) struct FixingLines {
    pub(crate) month: Line,
    pub(crate) days: [DayLines; ROW],
}

// The lines of a day that charges nothing.
const NO_LINES: DayLines = DayLines {
    balancing: Line::GIVES_NOTHING,
    overrun: Line::GIVES_NOTHING,
};

impl Table {
    // Whether there was notice on a day. That the month has the day is asked here and where its lines and its gas are
    // made: a type of the day's number alone could not say so, since it knows no month.
    fn has_notice(&self, day: u8) -> bool
        requires from { 1 ≤ day }
        requires upto { day ≤ self.now.days }
        ensures { result ≡ noticed self.now day }
    {
        self.notices[day as usize - 1]
    }
}

impl<M: Schedule, D: Schedule, O: Schedule> PoolBook<M, D, O> {
    // The lines that fix the charges of a day.
    fn lines_on(&self, day: u8) -> DayLines
        requires from { 1 ≤ day }
        requires upto { day ≤ self.now.table.days }
        ensures { result ≡ fixed_on (terms_of M.lines D.lines O.lines self.now.schedules) self.now.table day }
    {
        let gas = self.table.day_total(day);
        let balancing = self.schedules.day.line_at(gas);
        if self.table.has_notice(day) {
            let overrun = self.schedules.overrun.line_at(gas);
            DayLines { balancing, overrun }
        } else {
            DayLines {
                balancing,
                overrun: Line::GIVES_NOTHING,
            }
        }
    }

    // The lines of each day of the month.
    fn day_lines(&self) -> [DayLines; ROW]
        ensures { (day : ℕ) → 1 ≤ day → day ≤ self.now.table.days → lines_of result day ≡ fixed_on (terms_of M.lines D.lines O.lines self.now.schedules) self.now.table day }
    {
        let mut lines = [NO_LINES; ROW];
        // By numbers, since a day's lines are asked for by its number.
        for d in 0..self.table.days() {
            lines[d as usize] = self.lines_on(d + 1);
        }
        lines
    }

    // The lines of the month.
    pub(crate) fn fixing_lines(&self) -> FixingLines
        ensures fixes { Fixes result (terms_of M.lines D.lines O.lines self.now.schedules) self.now.table }
        ensures limited { Limited result self.now.table.days }
    {
        let gas = self.table.month_total();
        FixingLines {
            month: self.schedules.month.line_at(gas),
            days: self.day_lines(),
        }
    }
}
