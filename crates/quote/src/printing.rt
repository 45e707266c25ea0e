// What is printed of an account, and of a refusal.
ghost use Rattle.std.specs.Prelude.{◌≡◌, Some};
ghost use Rattle.quote.specs.Texts.{side, gas_text, credit_note, amount_lines, charge_lines, cash_out_text, day_text, refused_text};

use crate::account::{CashOut, DayAccount, Refused};
use schedule::{Charge, Gas, Line};
use std::fmt;
use wording::{Dollars, Grains};

// The difference in whole therms, with the word for its side, and the base.
#[derive(Clone, Copy, PartialEq, Eq, Debug)]
struct GasLines {
    gas: Gas,
    above: &'static str,
    below: &'static str,
}

// An amount in grains and in dollars.
#[derive(Clone, Copy, PartialEq, Eq, Debug)]
struct AmountLines {
    name: &'static str,
    grains: i128,
}

// The line that fixed a charge, and the charge.
#[derive(Clone, Copy, PartialEq, Eq, Debug)]
struct ChargeLines {
    name: &'static str,
    charge: Charge,
}

impl GasLines {
    // The word for the side of the difference.
    fn side(&self) -> &'static str
        ensures { result.now ≡ side self.now.above.now self.now.below.now self.now.gas.difference }
    {
        if self.gas.difference < 0 {
            self.below
        } else {
            self.above
        }
    }
}

// What is said of an amount below 0.
fn credit_note(is_credit: bool) -> &'static str
    ensures { result.now ≡ credit_note is_credit }
{
    if is_credit { ", a credit" } else { "" }
}

impl fmt::Display for GasLines {
    ghost output = { λ lines. Some (gas_text lines.above.now lines.below.now lines.gas) };

    fn fmt<W: fmt::Write>(&self, f: &mut fmt::Formatter<W>) -> fmt::Result {
        let size = self.gas.difference.unsigned_abs() / 1000;
        let side = self.side();
        let base = self.gas.base / 1000;
        write!(
            f,
            "  difference: {size} therms {side}\n  base: {base} therms\n"
        )
    }
}

impl fmt::Display for AmountLines {
    ghost output = { λ lines. Some (amount_lines lines.name.now lines.grains) };

    fn fmt<W: fmt::Write>(&self, f: &mut fmt::Formatter<W>) -> fmt::Result {
        let name = self.name;
        let grains = self.grains;
        let dollars = Dollars::from(Grains(grains));
        let credit = credit_note(dollars.is_credit);
        write!(
            f,
            "  {name} charge: {grains} grains\n  {name} charge: {dollars}{credit}\n"
        )
    }
}

impl fmt::Display for ChargeLines {
    ghost output = { λ lines. Some (charge_lines lines.name.now lines.charge) };

    fn fmt<W: fmt::Write>(&self, f: &mut fmt::Formatter<W>) -> fmt::Result {
        let name = self.name;
        let Line { a, b } = self.charge.line;
        let amount = AmountLines {
            name,
            grains: self.charge.grains,
        };
        write!(
            f,
            "  {name} line: {a} of the difference and {b} of the base, in grains a thousandth of a therm\n{amount}"
        )
    }
}

impl fmt::Display for CashOut {
    ghost output = { λ q. Some (cash_out_text q) };

    fn fmt<W: fmt::Write>(&self, f: &mut fmt::Formatter<W>) -> fmt::Result {
        let gas = GasLines {
            gas: self.gas,
            above: "short",
            below: "long",
        };
        let charge = ChargeLines {
            name: "cash-out",
            charge: self.charge,
        };
        write!(f, "{gas}{charge}")
    }
}

impl fmt::Display for DayAccount {
    ghost output = { λ q. Some (day_text q) };

    fn fmt<W: fmt::Write>(&self, f: &mut fmt::Formatter<W>) -> fmt::Result {
        let gas = GasLines {
            gas: self.gas,
            above: "above the nomination",
            below: "below the nomination",
        };
        let balancing = ChargeLines {
            name: "balancing",
            charge: self.balancing,
        };
        let whole = AmountLines {
            name: "whole",
            grains: self.total,
        };
        match self.overrun {
            None => write!(f, "{gas}{balancing}{whole}"),
            Some(charge) => {
                let overrun = ChargeLines {
                    name: "overrun",
                    charge,
                };
                write!(f, "{gas}{balancing}{overrun}{whole}")
            }
        }
    }
}

impl fmt::Display for Refused {
    ghost output = { λ refused. Some (refused_text refused) };

    fn fmt<W: fmt::Write>(&self, f: &mut fmt::Formatter<W>) -> fmt::Result {
        match *self {
            Refused::OutOfRange => write!(
                f,
                "  a base or a difference above 62000000 therms is beyond every pool"
            ),
            Refused::NoLadder(refusal) => {
                let number = refusal.number();
                write!(f, "  refused with {number}: {refusal}")
            }
        }
    }
}
