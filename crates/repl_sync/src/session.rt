//! A connection of a standby, and what it has reported.
ghost use Rattle.std.specs.Prelude.{◌≡◌, ◌≢◌, ◌<◌, max, length, MatchOption, All, slice_index_or, filter};
ghost use Rattle.repl_sync.specs.declared.session.Entry.{Entry};
ghost use Rattle.repl_sync.specs.State.{starts, stops, reports, tells, Rests};
ghost use Rattle.repl_sync.specs.Inside.{effect, session_of, sessions_of, Alike};

use repl_lsn::Lsn;
use repl_names::Candidate;
use repl_text::Text;

/// What a standby says of its oldest transactions, so that the server keeps what they read (manual, section
/// "Streaming Replication Protocol", hot standby feedback).
#[derive(Clone, Copy, Debug, PartialEq, Eq)]
pub struct FeedbackValue {
    /// The standby's clock, in microseconds since 2000-01-01.
    pub clock: u64,
    /// Its oldest transaction, or 0.
    pub xmin: u32,
    /// The epoch of `xmin`.
    pub epoch: u32,
    /// The oldest transaction of its catalogs, or 0.
    pub catalog_xmin: u32,
    /// The epoch of `catalog_xmin`.
    pub catalog_epoch: u32,
}

/// A change of a session.
#[derive(Clone, Copy)]
pub(crate) enum Change {
    Start,
    Stop,
    /// How far its standby has written, flushed and applied.
    Report(u64, u64, u64),
    Tell(FeedbackValue),
}

/// A connection. Its priority on the list in force is kept with it, and one that does not stream has no positions: so
/// it is a candidate exactly where it streams, is on the list and has flushed something.
#[derive(Drop)]
pub(crate) struct Entry {
    pub(crate) candidate: Candidate,
    pub(crate) name: Text,
    pub(crate) streaming: bool,
    pub(crate) feedback: Option<FeedbackValue>,
}

impl Entry {
    /// It begins to stream.
    fn start(&mut self)
        requires { Rests (session_of self.old) }
        ensures changed { session_of self.new ≡ starts (session_of self.old) }
        ensures alike { Alike self.old self.new }
    {
        self.streaming = true;
    }

    /// It streams no more.
    pub(crate) fn stop(&mut self)
        ensures changed { session_of self.new ≡ stops (session_of self.old) }
        ensures alike { Alike self.old self.new }
    {
        self.streaming = false;
        self.candidate.written = Lsn(0);
        self.candidate.flushed = Lsn(0);
        self.candidate.applied = Lsn(0);
    }

    /// Its standby reports. A position that is below the one before changes nothing.
    fn report(&mut self, written: u64, flushed: u64, applied: u64)
        requires { Rests (session_of self.old) }
        ensures changed { session_of self.new ≡ reports written flushed applied (session_of self.old) }
        ensures alike { Alike self.old self.new }
    {
        if self.streaming {
            self.candidate.written = later(self.candidate.written, written);
            self.candidate.flushed = later(self.candidate.flushed, flushed);
            self.candidate.applied = later(self.candidate.applied, applied);
        }
    }

    /// Its standby tells what it needs.
    fn tell(&mut self, value: FeedbackValue)
        requires { Rests (session_of self.old) }
        ensures changed { session_of self.new ≡ tells value (session_of self.old) }
        ensures alike { Alike self.old self.new }
    {
        self.feedback = Some(value);
    }

    /// Makes the change.
    pub(crate) fn change(&mut self, change: Change)
        requires { Rests (session_of self.old) }
        ensures changed { session_of self.new ≡ effect change (session_of self.old) }
        ensures alike { Alike self.old self.new }
    {
        match change {
            Change::Start => self.start(),
            Change::Stop => self.stop(),
            Change::Report(written, flushed, applied) => self.report(written, flushed, applied),
            Change::Tell(value) => self.tell(value),
        }
    }
}

/// The later position.
fn later(old: Lsn, new: u64) -> Lsn
    ensures { result ≡ max old new }
{
    Lsn(old.0.max(new))
}

/// The place of the session with this number, where there is one.
pub(crate) fn place_of(entries: &[Entry], session: u64) -> Option<usize>
    ensures { MatchOption result (All (λ e. e.candidate.session ≢ session) entries.now)
        (λ place. (place < length entries.now) × ((d : Entry) → (slice_index_or entries.now place d).candidate.session ≡ session)) }
{
    entries
        .iter()
        .position(|entry| entry.candidate.session == session)
}

/// How many of the sessions stream.
pub(crate) fn count_streaming(entries: &[Entry]) -> usize
    ensures { result ≡ length (filter (λ s. s.streaming) (sessions_of entries.now)) }
{
    let mut count = 0;
    for entry in entries {
        if entry.streaming {
            count += 1;
        }
    }
    count
}
