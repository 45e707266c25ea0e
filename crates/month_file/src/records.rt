// The records of a month file, each with its place, in the order in which they lie in the file.
ghost use Rattle.std.specs.Prelude.{◌≡◌, ◌+◌, ◌<◌, ◌≤◌, length, Ok, Err};
ghost use Rattle.std.specs.Iterator.{at_most};
ghost use Rattle.month_format.specs.Files.{most_bytes, versioned};
ghost use Rattle.month_meaning.specs.Reading.{place_at};
ghost use Rattle.month_file.specs.Given.{Gives};

use month_format::{BytesError, Place, Record, RecordError, after_version, next_record};

// What is left of a file. After a record that could not be read nothing is left.
#[derive(Drop)]
pub(crate) struct Records<'a> {
    // how many records came before
    before: u32,
    // the bytes of the whole file
    total: usize,
    left: &'a [u8],
    ghost few: { before + length left.now < total },
    ghost short: { total ≤ most_bytes },
}

impl<'a> Records<'a> {
    // All records of a file, which begin after its version.
    pub(crate) fn of(file: &'a [u8]) -> Result<Records<'a>, BytesError>
        ensures { elim result [ Ok all ↦ (versioned file.now ≡ Ok all.left.now) × (all.before ≡ 0) × (all.total ≡ length file.now) | Err error ↦ versioned file.now ≡ Err error ] }
    {
        Ok(Records {
            before: 0,
            total: file.len(),
            left: after_version(file)?,
        })
    }

    // The place of the next record, or of the end of the file.
    pub(crate) fn place(&self) -> Place
        ensures { result ≡ place_at self.now.before self.now.total self.now.left.now }
    {
        Place {
            nth: self.before + 1,
            byte: (self.total - self.left.len()) as u32,
        }
    }
}

impl<'a> Iterator for Records<'a> {
    type Item = (Place, Result<Record<'a>, RecordError>);

    ghost next_gives = { λ it answer later. Gives it.before it.total it.left.now answer later.before later.total later.left.now };

    ghost remaining = { λ it. at_most (length it.left.now) };

    // Inlined, since it is asked once for each record.
    #[inline]
    fn next(&mut self) -> Option<(Place, Result<Record<'a>, RecordError>)> {
        if self.left.is_empty() {
            return None;
        }
        let place = self.place();
        let (record, left) = match next_record(self.left) {
            Ok((record, rest)) => (Ok(record), rest),
            Err(error) => (Err(error), [].as_slice()),
        };
        self.before += 1;
        self.left = left;
        Some((place, record))
    }
}
