// What a line asks for.
ghost use Rattle.std.specs.Prelude.{codes, MatchResult};
ghost use Rattle.wording.specs.Lines.{ReadAs, SpellsNothing, GoesOnAs, GoesOnAsNothing};
ghost use Rattle.quote.specs.Requests.{Spells, SpellsNotice};

use wording::{Fault, LineReader};

// A month to cash out: the number of bands, as the line has it, since a type of bands would have to refuse it here, the prices of the ladder, the gas delivered and the
// net gas received, in therms.
#[derive(Clone, Copy, PartialEq, Eq, Debug)]
pub struct Month {
    pub bands: u8,
    pub average: u32,
    pub lowest: u32,
    pub delivered: u32,
    pub received: i32,
}

// A day to charge: its nomination and its use, in therms, and whether there is a notice.
#[derive(Clone, Copy, PartialEq, Eq, Debug)]
pub struct DayUse {
    pub nominated: u32,
    pub used: u32,
    pub notice: bool,
}

#[derive(Clone, Copy, PartialEq, Eq, Debug)]
pub enum Request {
    // cash-out BANDS AVERAGE LOWEST DELIVERED RECEIVED
    CashOut(Month),
    // day NOMINATED USED, with the word notice behind it on a day with a notice
    Day(DayUse),
}

// The cash-out behind its first word.
fn read_cash_out<'a>(line: &mut LineReader<'a>) -> Result<Request, Fault<'a>>
    ensures { MatchResult result (GoesOnAs Spells (codes "cash-out") line.old) (λ _. GoesOnAsNothing Spells (codes "cash-out") line.old) }
{
    let bands = line.number("the number of bands")?;
    let average = line.number("the average price")?;
    let lowest = line.number("the lowest price")?;
    let delivered = line.number("the gas delivered")?;
    let received = line.number("the net gas received")?;
    line.end()?;
    Ok(Request::CashOut(Month {
        bands,
        average,
        lowest,
        delivered,
        received,
    }))
}

// Whether the word notice stands last; else no word is left.
fn read_notice<'a>(line: &mut LineReader<'a>) -> Result<bool, Fault<'a>>
    ensures { MatchResult result (ReadAs SpellsNotice line.old) (λ _. SpellsNothing SpellsNotice line.old) }
{
    match line.word_if_any() {
        None => Ok(false),
        Some("notice") => {
            line.end()?;
            Ok(true)
        }
        Some(word) => Err(Fault::Superfluous(word)),
    }
}

// The day behind its first word.
fn read_day<'a>(line: &mut LineReader<'a>) -> Result<Request, Fault<'a>>
    ensures { MatchResult result (GoesOnAs Spells (codes "day") line.old) (λ _. GoesOnAsNothing Spells (codes "day") line.old) }
{
    let nominated = line.number("the nomination")?;
    let used = line.number("the gas used")?;
    let notice = read_notice(line)?;
    Ok(Request::Day(DayUse {
        nominated,
        used,
        notice,
    }))
}

// The request that the words of a line spell; just where they spell none, what is wrong with the line.
pub fn read_request<'a>(line: &'a str) -> Result<Request, Fault<'a>>
    ensures { MatchResult result (ReadAs Spells line.now) (λ _. SpellsNothing Spells line.now) }
{
    let mut reader = LineReader::new(line);
    match reader.word_if_any() {
        Some("cash-out") => read_cash_out(&mut reader),
        Some("day") => read_day(&mut reader),
        Some(word) => Err(Fault::UnknownRequest(word, ": write cash-out or day")),
        None => Err(Fault::Empty),
    }
}
