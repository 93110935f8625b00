ghost use Rattle.std.specs.Prelude.{◌≡◌, ℕ, ◌^◌, ◌<◌};
ghost use Rattle.repl_effects.specs.Counts.{RoseOnce};

use std::marker::Model;

/// A number of events. It rises by one at a time and stops at 2^64 - 1.
#[derive(Clone, Copy, Debug, PartialEq, Eq)]
pub struct Count {
    events: u64,
}

impl Model for Count {
    ghost Value = { ℕ };

    ghost view = { λ c. c.events };

    ghost invariant = { λ c. c.events < 2 ^ 64 };

    ghost inverse = { λ n. record { events = n } };
}

impl Count {
    /// No event so far.
    pub fn new() -> Self
        ensures { result ≡ 0 }
    {
        Count { events: 0 }
    }

    /// The number of events, or 2^64 - 1 where there were more.
    pub fn get(self) -> u64
        ensures { result ≡ self }
    {
        self.events
    }

    /// Counts one more event.
    pub fn raise(&mut self)
        ensures { RoseOnce self.old self.new }
    {
        self.events = self.events.saturating_add(1);
    }
}
