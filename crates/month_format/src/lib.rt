// The format of a month file: how its records lie in its bytes, what each record says, and why bytes or a record are
// refused.
#![tactic(auto)]

mod errors;
mod frames;
mod place;
mod record;

pub use errors::{BytesError, RecordError};
pub use frames::{MOST_BYTES, VERSION, after_version, next_record};
pub use place::{Layer, Place};
pub use record::{Posting, Record, value};
