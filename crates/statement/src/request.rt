// What a line asks for.
ghost use Rattle.std.specs.Prelude.{codes, MatchResult};
ghost use Rattle.wording.specs.Lines.{ReadAs, SpellsNothing, GoesOnAs, GoesOnAsNothing};
ghost use Rattle.statement.specs.Requests.{Spells, SpellsBlocks, NumberOrEnd, NoNumber};

use billing::{Block, Blocks, Call, Entry, Usage};
use wording::{Fault, LineReader};

#[derive(Clone, Copy, PartialEq, Eq, Debug)]
pub enum Request {
    // sheet NUMBER CENTS A MONTH, then for each block that ends its END and RATE, and the last RATE
    Sheet {
        number: u32,
        monthly_cents: u32,
        blocks: Blocks,
    },
    // member NUMBER
    Member {
        number: u32,
    },
    // bill MEMBER SHEET DAYS SERVED THERMS and the POOL'S CENTS
    Bill {
        member: u32,
        sheet: u32,
        usage: Usage,
    },
    // pay MEMBER CENTS, or late MEMBER
    Enter(Call),
}

// The next word as a number, if there is one. It is `LineReader::number` with no fault of a missing word; beside it, since of
// all lines only a sheet's may end where a number can stand.
fn maybe_number<'a>(line: &mut LineReader<'a>, name: &'static str) -> Result<Option<u32>, Fault<'a>>
    ensures { MatchResult result (NumberOrEnd line.old line.new) (λ _. NoNumber line.old) }
{
    line.word_if_any()
        .map(|word| word.parse().map_err(|_| Fault::NotANumber(name, word)))
        .transpose()
}

// One, three or five numbers to the end of the line: the blocks that end, and the last rate.
fn read_blocks<'a>(line: &mut LineReader<'a>) -> Result<Blocks, Fault<'a>>
    ensures { MatchResult result (ReadAs SpellsBlocks line.old) (λ _. SpellsNothing SpellsBlocks line.old) }
{
    let one: u32 = line.number("the rate")?;
    let Some(first_rate) = maybe_number(line, "the rate of the first block")? else {
        return Ok(Blocks::One { rate: one });
    };
    let first = Block {
        end: one,
        rate: first_rate,
    };
    let two: u32 = line.number("the rate above")?;
    let Some(second_rate) = maybe_number(line, "the rate of the second block")? else {
        return Ok(Blocks::Two { first, rate: two });
    };
    let second = Block {
        end: two,
        rate: second_rate,
    };
    let rate = line.number("the rate above")?;
    line.end()?;
    Ok(Blocks::Three {
        first,
        second,
        rate,
    })
}

// The rate sheet behind the first word.
fn read_sheet<'a>(line: &mut LineReader<'a>) -> Result<Request, Fault<'a>>
    ensures { MatchResult result (GoesOnAs Spells (codes "sheet") line.old) (λ _. GoesOnAsNothing Spells (codes "sheet") line.old) }
{
    let number = line.number("the sheet")?;
    let monthly_cents = line.number("the monthly charge")?;
    let blocks = read_blocks(line)?;
    Ok(Request::Sheet {
        number,
        monthly_cents,
        blocks,
    })
}

// The new member behind the first word. Read as `read_late` reads its member; each makes its own request of it, and both on
// one reading would be no shorter.
fn read_member<'a>(line: &mut LineReader<'a>) -> Result<Request, Fault<'a>>
    ensures { MatchResult result (GoesOnAs Spells (codes "member") line.old) (λ _. GoesOnAsNothing Spells (codes "member") line.old) }
{
    let number = line.number("the member")?;
    line.end()?;
    Ok(Request::Member { number })
}

// The bill behind the first word.
fn read_bill<'a>(line: &mut LineReader<'a>) -> Result<Request, Fault<'a>>
    ensures { MatchResult result (GoesOnAs Spells (codes "bill") line.old) (λ _. GoesOnAsNothing Spells (codes "bill") line.old) }
{
    let member = line.number("the member")?;
    let sheet = line.number("the sheet")?;
    let days = line.number("the days of the month")?;
    let served = line.number("the days served")?;
    let therms = line.number("the therms")?;
    let pool_cents = line.number("the pool's cents")?;
    line.end()?;
    Ok(Request::Bill {
        member,
        sheet,
        usage: Usage {
            days,
            served,
            therms,
            pool_cents,
        },
    })
}

// The payment behind the first word.
fn read_payment<'a>(line: &mut LineReader<'a>) -> Result<Request, Fault<'a>>
    ensures { MatchResult result (GoesOnAs Spells (codes "pay") line.old) (λ _. GoesOnAsNothing Spells (codes "pay") line.old) }
{
    let account = line.number("the member")?;
    let amount = line.number("the amount")?;
    line.end()?;
    Ok(Request::Enter(Call {
        account,
        entry: Entry::Pay { amount },
    }))
}

// The late charge behind the first word. Its words are a new member's: one function of both would be handed the request
// to make, and be no shorter.
fn read_late<'a>(line: &mut LineReader<'a>) -> Result<Request, Fault<'a>>
    ensures { MatchResult result (GoesOnAs Spells (codes "late") line.old) (λ _. GoesOnAsNothing Spells (codes "late") line.old) }
{
    let account = line.number("the member")?;
    line.end()?;
    Ok(Request::Enter(Call {
        account,
        entry: Entry::Late,
    }))
}

// The request that the words of a line spell; just where they spell none, what is wrong with the line.
pub(crate) fn read_request<'a>(line: &'a str) -> Result<Request, Fault<'a>>
    ensures { MatchResult result (ReadAs Spells line.now) (λ _. SpellsNothing Spells line.now) }
{
    let mut reader = LineReader::new(line);
    match reader.word_if_any() {
        Some("sheet") => read_sheet(&mut reader),
        Some("member") => read_member(&mut reader),
        Some("bill") => read_bill(&mut reader),
        Some("pay") => read_payment(&mut reader),
        Some("late") => read_late(&mut reader),
        Some(word) => Err(Fault::UnknownRequest(word, "")),
        None => Err(Fault::Empty),
    }
}
