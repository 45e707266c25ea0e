ghost use Rattle.std.specs.Prelude.{◌≡◌, ◌≤◌, Some, None, Ok, Err, map};
ghost use Rattle.schedule.specs.Answers.{answer};
ghost use Rattle.tariff.specs.Tables.{bands_of};
ghost use Rattle.tariff.specs.BandLines.{band_line, line_of, ladder_lines, ladder_lawful};
ghost use Rattle.tariff.specs.Banded.{banded};
ghost use Rattle.tariff.specs.Refusals.{bands_counted, ladder_refusal};
ghost use Rattle.tariff.specs.Bandings.{lines_are_bands};

use super::formula::Formula;
use super::refusal::Refusal;
use schedule::{Gas, Line, Schedule, first_greatest};

// the highest price, in ten-thousandths of a dollar a therm
const HIGHEST_PRICE: u32 = 30_000;

// How many bands an imbalance is priced in.
#[derive(Clone, Copy, PartialEq, Eq, Debug)]
pub enum Bands {
    Six,
    Four,
}

impl TryFrom<u8> for Bands {
    type Error = Refusal;

    ghost try_from_gives = { λ count answer. answer ≡ bands_counted count };

    fn try_from(count: u8) -> Result<Bands, Refusal> {
        match count {
            6 => Ok(Bands::Six),
            4 => Ok(Bands::Four),
            _ => Err(Refusal::BadBandCount),
        }
    }
}

// The line of a band of short gas or of long, apart from the price: its percentage in tens, and its offset in
// fortieths of the base. Two cases with two numbers each, so that the tables below read as the tariff's columns do.
#[derive(Clone, Copy, PartialEq, Eq, Debug)]
enum BandLine {
    Short(u8, u8),
    Long(u8, u8),
}

const SIX_BAND_LINES: [BandLine; 12] = [
    BandLine::Short(10, 0),
    BandLine::Short(11, 1),
    BandLine::Short(12, 3),
    BandLine::Short(13, 6),
    BandLine::Short(14, 10),
    BandLine::Short(15, 15),
    BandLine::Long(10, 0),
    BandLine::Long(9, 1),
    BandLine::Long(8, 3),
    BandLine::Long(7, 6),
    BandLine::Long(6, 10),
    BandLine::Long(5, 15),
];

const FOUR_BAND_LINES: [BandLine; 8] = [
    BandLine::Short(10, 0),
    BandLine::Short(11, 4),
    BandLine::Short(12, 12),
    BandLine::Short(14, 36),
    BandLine::Long(10, 0),
    BandLine::Long(9, 4),
    BandLine::Long(8, 12),
    BandLine::Long(6, 36),
];

// The line of a band at a price.
fn band_line(price: u32, percent: u8, offset: u8) -> Line
    requires { price ≤ 30000 }
    ensures { result ≡ band_line price percent offset }
{
    Line {
        a: (40 * percent as u32 * price) as i32,
        b: -((price * offset as u32) as i32),
    }
}

// The monthly cash-out: an imbalance priced by bands of its size against the base, short gas at the average price and
// long gas at the lowest.
#[derive(Clone, Copy, PartialEq, Eq, Debug)]
pub struct Ladder {
    bands: Bands,
    average: u32,
    lowest: u32,
    ghost high: { average ≤ 30000 },
    ghost low: { lowest ≤ average },
}

impl Ladder {
    // A ladder of six bands or four at these prices, in ten-thousandths of a dollar a therm. The number of bands is as it
    // comes from outside: with `Bands` in its place, callers would have to refuse another number themselves.
    pub fn new(bands: u8, average: u32, lowest: u32) -> Result<Ladder, Refusal>
        ensures { elim result [ Ok l ↦ (ladder_refusal bands average lowest ≡ None) × (l.bands ≡ bands_of bands) × (l.average ≡ average) × (l.lowest ≡ lowest) | Err e ↦ ladder_refusal bands average lowest ≡ Some e ] }
    {
        let bands = Bands::try_from(bands)?;
        if average > HIGHEST_PRICE || lowest > HIGHEST_PRICE {
            return Err(Refusal::PriceTooHigh);
        }
        if lowest > average {
            return Err(Refusal::LowestAboveAverage);
        }
        Ok(Ladder {
            bands,
            average,
            lowest,
        })
    }

    // The line at the ladder's prices, of short gas at the average and of long gas at the lowest.
    fn line_of(&self, band: BandLine) -> Line
        ensures { result ≡ line_of self.now.average self.now.lowest band }
    {
        match band {
            BandLine::Short(percent, offset) => band_line(self.average, percent, offset),
            BandLine::Long(percent, offset) => band_line(self.lowest, percent, offset),
        }
    }

    // The answer of these lines. They are made by a loop, which is unrolled, and not by the array's `map`, which is not: six bands
    // took more than twice the time by it.
    fn first_greatest_of<const N: usize>(&self, bands: [BandLine; N], gas: Gas) -> Line
        requires { N ≤ 12 }
        ensures { result ≡ answer gas.difference gas.base (map (line_of self.now.average self.now.lowest) bands.entry) }
    {
        let mut lines = [Line::GIVES_NOTHING; N];
        for (i, band) in bands.iter().enumerate() {
            lines[i] = self.line_of(*band);
        }
        first_greatest(&lines, gas)
    }
}

impl Schedule for Ladder {
    ghost lines = { λ s. ladder_lines s.bands s.average s.lowest };

    ghost lawful = { λ s. ladder_lawful s.bands s.average s.lowest s.high s.low };

    fn line_at(&self, gas: Gas) -> Line {
        match self.bands {
            Bands::Six => self.first_greatest_of(SIX_BAND_LINES, gas),
            Bands::Four => self.first_greatest_of(FOUR_BAND_LINES, gas),
        }
    }
}

impl Formula for Ladder {
    ghost formula = { λ s. banded s.bands s.average s.lowest };

    ghost agrees = { λ s. lines_are_bands s.bands s.average s.lowest s.low };
}
