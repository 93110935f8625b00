//! Events, and histories of them from a simple generator of numbers.
use repl_names::Mode;

/// A call of `SyncState`. A name is one letter, and a list its place in the table of lists.
#[derive(Clone, Copy)]
pub enum Event {
    Connect(u64, u8),
    Streaming(u64),
    StopStreaming(u64),
    Disconnect(u64),
    /// The session, and how far its standby has written, flushed and applied.
    Report(u64, u64, u64, u64),
    SetNames(usize),
    NewTimeline,
    Prepare,
    Wait(u64, u64, Mode),
    WaitCancelled(u64),
    Look(u64),
    Cancel(u64),
    CancelAll,
}

/// A generator of numbers: a linear congruence over 64 bits, with the multiplier and the increment of Knuth's MMIX.
#[derive(Drop)]
pub struct Numbers {
    state: u64,
    /// How many events were made.
    events: u64,
    /// The session that was last asked to connect, or 0.
    connected: u64,
    /// How many tickets were asked for, so that most tickets that are drawn are there.
    prepared: u64,
}

impl Numbers {
    /// The numbers from this seed.
    pub fn new(seed: u64) -> Numbers {
        Numbers {
            state: seed,
            events: 0,
            connected: 0,
            prepared: 0,
        }
    }

    /// The next number, below 2^31: the high bits of the state.
    fn next(&mut self) -> u64 {
        self.state = self
            .state
            .wrapping_mul(6_364_136_223_846_793_005)
            .wrapping_add(1_442_695_040_888_963_407);
        self.state >> 33
    }

    /// One of five sessions, a low number more often.
    fn session(&mut self) -> u64 {
        let other = self.next() % 5;
        other.min(self.next() % 5) + 1
    }

    /// A position from 0 to 6.
    fn position(&mut self) -> u64 {
        self.next() % 7
    }

    /// A commit's end, a low one more often.
    fn end(&mut self) -> u64 {
        let other = self.position();
        other.min(self.position())
    }

    /// A position that is reported, a high one more often.
    fn reported(&mut self) -> u64 {
        let other = self.position();
        other.max(self.position())
    }

    /// One of three names, so that some sessions have one name.
    fn name(&mut self) -> u8 {
        match self.next() % 3 {
            0 => b'a',
            1 => b'b',
            _ => b'c',
        }
    }

    fn mode(&mut self) -> Mode {
        match self.next() % 3 {
            0 => Mode::Write,
            1 => Mode::Flush,
            _ => Mode::Apply,
        }
    }

    /// One of the last tickets, or one that was not given: the next one, or one below the first.
    fn ticket(&mut self) -> u64 {
        let back = self.next() % 5;
        self.prepared.wrapping_add(1).wrapping_sub(back)
    }

    /// One of the last two tickets, which often do not wait yet, or the next one.
    fn late_ticket(&mut self) -> u64 {
        let back = (self.next() % 5 + 1) / 2;
        self.prepared.wrapping_add(1).wrapping_sub(back)
    }

    /// One of the ten lists.
    fn list(&mut self) -> usize {
        (self.next() % 10) as usize
    }

    /// The next event of a history. The first puts a list in force, and those up to the 14th mostly let sessions stream.
    /// Then reports and what leads to releases come more often, and from the 33rd on the tickets from 1 on are looked at,
    /// one after another.
    pub fn event(&mut self) -> Event {
        self.events = self.events.wrapping_add(1);
        if self.events == 1 {
            Event::SetNames(self.list())
        } else if self.events <= 14 {
            self.early_event()
        } else if self.events <= 32 {
            self.late_event()
        } else {
            Event::Look(self.events.wrapping_sub(32))
        }
    }

    fn early_event(&mut self) -> Event {
        match self.next() % 12 {
            0..=3 => self.connect(),
            4..=6 => Event::Streaming(self.connected),
            7 => Event::Streaming(self.session()),
            8..=10 => self.report(),
            _ => self.event_on_tickets(),
        }
    }

    fn late_event(&mut self) -> Event {
        match self.next() % 40 {
            0..=1 => self.connect(),
            2..=4 => Event::Streaming(self.session()),
            5 => Event::StopStreaming(self.session()),
            6 => Event::Disconnect(self.session()),
            7..=18 => self.report(),
            19 => Event::SetNames(self.list()),
            _ => self.event_on_tickets(),
        }
    }

    fn connect(&mut self) -> Event {
        self.connected = self.session();
        Event::Connect(self.connected, self.name())
    }

    fn report(&mut self) -> Event {
        let session = self.session();
        let written = self.reported();
        let flushed = self.reported();
        Event::Report(session, written, flushed, self.reported())
    }

    /// An event on tickets, or rarely a new timeline.
    fn event_on_tickets(&mut self) -> Event {
        match self.next() % 40 {
            0..=13 => {
                self.prepared = self.prepared.wrapping_add(1);
                Event::Prepare
            }
            14..=29 => Event::Wait(self.late_ticket(), self.end(), self.mode()),
            30 => Event::WaitCancelled(self.late_ticket()),
            31..=36 => Event::Look(self.ticket()),
            37 => Event::Cancel(self.ticket()),
            38 => Event::CancelAll,
            _ => Event::NewTimeline,
        }
    }
}
