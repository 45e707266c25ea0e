// The gas of the whole pool, in thousandths of a therm.
ghost use Rattle.std.specs.Prelude.{◌≡◌, ◌<◌, ◌≤◌, length};
ghost use Rattle.schedule.specs.declared.gas.Gas.{Gas as GasOf};
ghost use Rattle.agreement.specs.Book.{Member};
ghost use Rattle.agreement.specs.Gases.{for_day, for_month, together, total};
ghost use Rattle.agreement.specs.Limits.{most_month_gas, most_pool_gas};
ghost use Rattle.agreement.specs.Sizes.{Sized, SmallMember};

use crate::row::Row;
use crate::table::Table;
use agreement::Gas;

// The gas of two together.
fn together(x: Gas, y: Gas) -> Gas
    requires sum { Sized most_pool_gas x }
    requires one { Sized most_month_gas y }
    ensures { result ≡ together x y }
{
    Gas {
        difference: x.difference + y.difference,
        base: x.base + y.base,
    }
}

impl Table {
    // The pool's gas: that of its members together.
    fn total<F: Fn(&Row) -> Gas>(&self, gas: F) -> Gas
        requires may { (row : _) → length row.now.days ≡ self.now.days → F.pre gas row }
        requires small { (row : _) (g : GasOf) → SmallMember row.now → F.post gas row g → Sized most_month_gas g }
        ensures { (of : Member → GasOf) → ((row : _) (g : GasOf) → F.post gas row g → g ≡ of row.now) → result ≡ total of self.now.members }
    {
        let mut sum = Gas {
            difference: 0,
            base: 0,
        };
        // By places: `self.row(place)` is shorter than a chain over the enrolments beside chunks of the cells.
        for place in 0..self.count() {
            sum = together(sum, gas(&self.row(place)));
        }
        sum
    }

    // The pool's gas for the month.
    pub(crate) fn month_total(&self) -> Gas
        ensures { result ≡ total for_month self.now.members }
    {
        self.total(|row| row.month_gas())
    }

    // The pool's gas for a day.
    pub(crate) fn day_total(&self, day: u8) -> Gas
        requires from { 1 ≤ day }
        requires upto { day ≤ self.now.days }
        ensures { result ≡ total (for_day day) self.now.members }
    {
        self.total(|row| row.day_gas(day))
    }
}
