ghost use Rattle.std.specs.Prelude.{◌≡◌, ◌<◌};
ghost use Rattle.std.specs.Option.{SomeIff};

use std::fmt;
use std::marker::Model;

/// The number of a timeline, from 1 to 4,294,967,295 (PostgreSQL 17 manual, section "Timelines").
#[derive(Clone, Copy, Debug, PartialEq, Eq, PartialOrd, Ord)]
pub struct Tli(pub u32);

impl Model for Tli {
    ghost use Rattle.std.specs.Prelude.{ℕ, ◌<◌, ◌^◌};

    ghost Value = { ℕ };

    ghost view = { λ t. t.0 };

    ghost invariant = { λ t. (0 < t.0) × (t.0 < 2 ^ 32) };

    ghost inverse = { λ n. record { 0 = n } };
}

impl Tli {
    /// The timeline with this number, which is not 0.
    pub fn new(number: u32) -> Option<Tli>
        ensures { SomeIff result (0 < number) number }
    {
        if number == 0 { None } else { Some(Tli(number)) }
    }

    /// The timeline's number, which is not 0.
    pub fn number(self) -> u32
        ensures { result ≡ self }
    {
        self.0
    }
}

/// The timeline's number in decimal digits.
impl fmt::Display for Tli {
    ghost use Rattle.std.specs.Prelude.{Some, decimal};

    ghost output = { λ timeline. Some (decimal timeline) };

    fn fmt<W: fmt::Write>(&self, f: &mut fmt::Formatter<W>) -> fmt::Result {
        let number = self.0;
        write!(f, "{number}")
    }
}
