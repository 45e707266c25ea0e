// Whether the month still takes calls.
ghost use Rattle.std.specs.Prelude.{◌≡◌};
ghost use Rattle.agreement.specs.Book.{is_closed};

#[derive(Clone, Copy, PartialEq, Eq, Debug)]
pub enum Status {
    Open,
    Closed,
}

impl Status {
    pub fn is_closed(self) -> bool
        ensures { result ≡ is_closed self }
    {
        self == Status::Closed
    }
}
