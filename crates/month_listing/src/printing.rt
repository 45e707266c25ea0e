// Lists a month file: its bills where it closes the month, that the month is open, or the fault.
ghost use Rattle.std.specs.Prelude.{◌≡◌, ◌≤◌, length};
ghost use Rattle.listing.specs.Block.{written};
ghost use Rattle.month_file.specs.Views.{held_by};
ghost use Rattle.month_meaning.specs.Bills.{Fair};
ghost use Rattle.month_listing.specs.Printed.{FairlyListed, printed, printed_month};

use listing::{BLOCK, Listing};
use month_file::{MonthBook, read_month};

// Lists a book.
fn list_book(book: &Option<MonthBook>, block: &mut [u8; BLOCK]) -> usize
    ensures block { block.new ≡ written 0 (printed_month (held_by book.now)) block.old }
    ensures end { result ≡ length (printed_month (held_by book.now)) }
    ensures fair { Fair (held_by book.now) }
{
    let Some(book) = book else {
        return Listing::Open.write(block);
    };
    let Ok(settlement) = book.settle() else {
        return Listing::Open.write(block);
    };
    let listing = Listing::Closed {
        days: book.days(),
        bills: settlement.bills(),
        total: settlement.total_cents(),
    };
    listing.write(block)
}

// Reads a month file, writes its listing at the start of the block and answers the length, as `Listing::write` does, since the
// block is the caller's and of fixed size; the rest of the block keeps its content.
pub fn list_month(file: &[u8], block: &mut [u8; BLOCK]) -> usize
    ensures block { block.new ≡ written 0 (printed file.now) block.old }
    ensures end { result ≡ length (printed file.now) }
    ensures fits { result ≤ 2048 }
    ensures whole { length block.new ≡ 2048 }
    ensures fair { FairlyListed file.now }
{
    let mut book = None;
    match read_month(&mut book, file) {
        Ok(()) => list_book(&book, block),
        Err(fault) => Listing::Fault(fault).write(block),
    }
}
