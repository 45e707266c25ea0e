// Where reading a month file stops: the layer that refuses, and the record that it refuses.
ghost use Rattle.std.specs.Prelude.{◌≡◌};
ghost use Rattle.month_format.specs.Numbers.{layer_number};

// A layer of reading, in the order in which they refuse, and the number of each.
#[derive(Clone, Copy, PartialEq, Eq, Debug)]
pub enum Layer {
    // The bytes of the file, and of its records.
    Bytes = 1,
    // A record, taken apart.
    Record = 2,
    // The pool book, and the ladder that it is set up with.
    Book = 3,
}

impl Layer {
    // The number that the layer goes by in a fault.
    pub fn number(self) -> u8
        ensures { result ≡ layer_number self }
    {
        self as u8
    }
}

// A record's number in the file, from 1, and the byte where its length starts.
#[derive(Clone, Copy, PartialEq, Eq, Debug)]
pub struct Place {
    pub nth: u32,
    pub byte: u32,
}
