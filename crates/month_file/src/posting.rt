// What a record of a month file does to the pool book: the first sets it up, and each later one makes a call of it.
ghost use Rattle.std.specs.Prelude.{◌≡◌, Some, None};
ghost use Rattle.month_format.specs.Views.{said_by, seen};
ghost use Rattle.month_meaning.specs.Layers.{month_or, done, posted_read};
ghost use Rattle.month_file.specs.Views.{month_of};

use crate::book::MonthBook;
use agreement::Days;
use month_format::{Record, RecordError, value};
use month_meaning::FileError;
use pool::PoolBook;
use tariff::{Bands, Ladder, Overrun, Tolerance};

// Sets up a book by the first record, with a ladder, the tolerance and the overrun. Here and in `post` the record comes as it was
// read, or why it could not be, so that one `?` turns all errors and the caller places them once. The number of bands is tested
// before the days and apart from the ladder, since the record's layer refuses it.
pub(crate) fn open(first: Result<Record, RecordError>) -> Result<MonthBook, FileError>
    ensures { seen month_of result ≡ posted_read None (seen said_by first.entry) }
{
    let Record::SetUp {
        days,
        bands,
        average,
        lowest,
    } = first?
    else {
        return Err(RecordError::MisplacedSetUp.into());
    };
    Bands::try_from(*bands).map_err(|_| RecordError::BadBandCount)?;
    let days = Days::try_from(*days)?;
    let ladder = Ladder::new(*bands, value(average), value(lowest))?;
    Ok(PoolBook::new(days, ladder, Tolerance, Overrun))
}

// Makes the call of a record; a set-up makes none, and has no place here.
pub(crate) fn post(book: &mut MonthBook, from: Result<Record, RecordError>) -> Result<(), FileError>
    ensures book { month_of book.new ≡ month_or (month_of book.old) (posted_read (Some (month_of book.old)) (seen said_by from.entry)) }
    ensures answer { result ≡ done (posted_read (Some (month_of book.old)) (seen said_by from.entry)) }
{
    let call = from?.call().ok_or(RecordError::MisplacedSetUp)?;
    book.apply(call)?;
    Ok(())
}
