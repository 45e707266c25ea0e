// Amounts of money, shown in dollars.
ghost use Rattle.std.specs.Prelude.{◌≡◌, ◌*◌, ◌≤◌, Some};
ghost use Rattle.std.specs.Fmt.{WritesOnOk};
ghost use Rattle.wording.specs.Dollars.{places_of, sign_of, dollar_text};
ghost use Rattle.wording.specs.Amounts.{IsExactly};

use std::fmt;

// An amount of money: whole dollars, and a fraction in units of the eleventh decimal place, of which a grain is 25 and a
// cent 1,000,000,000.
#[derive(Clone, Copy, PartialEq, Eq, Debug)]
pub struct Dollars {
    // a flag beside the size: -$0.50 has 0 whole dollars, so that no signed number of them could carry the sign
    pub is_credit: bool,
    pub whole: u128,
    pub fraction: u64,
}

// An amount in grains, of which a dollar has 4,000,000,000. Grains and cents are two types, as each says its own unit where
// it is made, which a number beside one type would not; one function, `dollars_of`, does the work of both.
#[derive(Clone, Copy, PartialEq, Eq, Debug)]
pub struct Grains(pub i128);

// An amount in cents.
#[derive(Clone, Copy, PartialEq, Eq, Debug)]
pub struct Cents(pub i128);

// The amount of so many units, of which so many make a dollar, and each is worth so many of the eleventh decimal place.
fn dollars_of(units: i128, to_the_dollar: u128, worth: u64) -> Dollars
    requires { worth * to_the_dollar ≡ 100000000000 }
    ensures { IsExactly worth units result }
{
    let size = units.unsigned_abs();
    Dollars {
        is_credit: units < 0,
        whole: size / to_the_dollar,
        fraction: (size % to_the_dollar) as u64 * worth,
    }
}

// Exactly.
impl From<Grains> for Dollars {
    ghost from_gives = { λ grains dollars. IsExactly 25 grains.0 dollars };

    fn from(grains: Grains) -> Dollars {
        dollars_of(grains.0, 4_000_000_000, 25)
    }
}

// Exactly.
impl From<Cents> for Dollars {
    ghost from_gives = { λ cents dollars. IsExactly 1000000000 cents.0 dollars };

    fn from(cents: Cents) -> Dollars {
        dollars_of(cents.0, 100, 1_000_000_000)
    }
}

// The digits of a fraction of a cent.
#[derive(Clone, Copy, PartialEq, Eq, Debug)]
struct Places {
    rest: u64,
}

// A minus before a credit.
fn sign_of(is_credit: bool) -> &'static str
    ensures { result.now ≡ sign_of is_credit }
{
    if is_credit { "-" } else { "" }
}

// The digits of so many decimal places, of a rest in units of the last of them: none behind the last that is not 0. It
// calls itself place by place, as `places_of` does: a loop would need a running rest, a break and an invariant, and a
// format writes a fixed number of places, zeros with them.
fn write_places<W: fmt::Write>(places: u32, rest: u64, f: &mut fmt::Formatter<W>) -> fmt::Result
    requires { places ≤ 9 }
    ensures { WritesOnOk W.Write.write_str_gives f.old result (places_of places rest) f.new }
{
    if places == 0 || rest == 0 {
        return Ok(());
    }
    let unit = 10u64.pow(places - 1);
    let digit = rest / unit;
    write!(f, "{digit}")?;
    write_places(places - 1, rest % unit, f)
}

impl fmt::Display for Places {
    ghost output = { λ p. Some (places_of 9 p.rest) };

    fn fmt<W: fmt::Write>(&self, f: &mut fmt::Formatter<W>) -> fmt::Result {
        write_places(9, self.rest, f)
    }
}

impl fmt::Display for Dollars {
    ghost output = { λ d. Some (dollar_text d.is_credit d.whole d.fraction) };

    fn fmt<W: fmt::Write>(&self, f: &mut fmt::Formatter<W>) -> fmt::Result {
        let sign = sign_of(self.is_credit);
        let whole = self.whole;
        let tens = self.fraction / 10_000_000_000;
        let units = self.fraction / 1_000_000_000 % 10;
        let places = Places {
            rest: self.fraction % 1_000_000_000,
        };
        write!(f, "{sign}${whole}.{tens}{units}{places}")
    }
}
