ghost use Rattle.std.specs.Prelude.{◌≡◌, ℕ, ◌&&◌, ◌<◌, ◌≤◌, min, map, filter, length, count_by, All};
ghost use Rattle.std.specs.List.{reduce};
ghost use Rattle.repl_names.specs.Quorum.{IsReleased, MetByAny, MetByFirst, candidates, counts, position, reaches};
ghost use Rattle.repl_names.specs.Order.{is_up_to, is_within};

use crate::list::{Method, StandbyList};
use repl_lsn::Lsn;

/// What of a standby's reports counts for a commit.
#[derive(Clone, Copy, Debug, PartialEq, Eq)]
pub enum Mode {
    /// What it has written.
    Write,
    /// What it has flushed.
    Flush,
    /// What it has applied.
    Apply,
}

/// A standby's session, with its priority on the list in force, and what the standby has reported.
#[derive(Clone, Copy, Debug, PartialEq, Eq)]
pub struct Candidate {
    /// The session's number: an older connection has a lesser one.
    pub session: u64,
    /// Its place on the list, from 1, or 0 where it is not on it.
    pub priority: u32,
    /// The position up to which the standby has written.
    pub written: Lsn,
    /// The position up to which the standby has flushed, or 0 where it has told none.
    pub flushed: Lsn,
    /// The position up to which the standby has applied.
    pub applied: Lsn,
}

impl Candidate {
    /// Whether it is on the list and has told what it flushed.
    pub fn counts(&self) -> bool
        ensures { result ≡ counts self.now }
    {
        self.priority > 0 && self.flushed.0 > 0
    }

    /// The position that counts in this mode.
    pub(crate) fn position(&self, mode: Mode) -> u64
        ensures { result ≡ position mode self.now }
    {
        match mode {
            Mode::Write => self.written.0,
            Mode::Flush => self.flushed.0,
            Mode::Apply => self.applied.0,
        }
    }

    /// Whether its priority is this one or a better one.
    fn is_up_to(&self, priority: u32) -> bool
        ensures { result ≡ is_up_to priority self.now }
    {
        self.priority <= priority
    }

    /// Whether its priority is better, or it is this one and its connection is this one or an older one.
    fn is_within(&self, priority: u32, session: u64) -> bool
        ensures { result ≡ is_within priority session self.now }
    {
        self.priority < priority || (self.priority == priority && self.session <= session)
    }
}

/// The greatest position at which the list is met by these sessions (manual, section "Synchronous
/// Replication"), and `None` exactly where fewer of them are candidates than the list demands. A candidate
/// has a priority and a flushed position above 0. Takes no memory, and at most about two hundred looks at
/// each session.
pub fn released(list: &StandbyList, sessions: &[Candidate], mode: Mode) -> Option<Lsn>
    requires { 0 < length list.now.names }
    ensures { IsReleased list.now sessions.now mode result }
{
    let number = list.number() as usize;
    if candidates_in(sessions) < number {
        return None;
    }
    match list.method() {
        Method::First => Some(released_by_first(sessions, mode, number)),
        Method::Any => Some(released_by_any(sessions, mode, number)),
    }
}

/// How many of the sessions are candidates.
fn candidates_in(sessions: &[Candidate]) -> usize
    ensures { result ≡ length (candidates sessions.now) }
{
    sessions.iter().filter(|c| c.counts()).count()
}

/// The greatest position that so many of the candidates have.
fn released_by_any(sessions: &[Candidate], mode: Mode, number: usize) -> Lsn
    requires some { 0 < number }
    requires enough { number ≤ length (candidates sessions.now) }
    ensures met { MetByAny number (candidates sessions.now) mode result }
    ensures greatest { (later : ℕ) → result < later → ¬ MetByAny number (candidates sessions.now) mode later }
{
    let mut low = 0;
    let mut high = greatest_position(sessions, mode);
    while low < high {
        let middle = high - (high - low) / 2;
        if candidates_at(sessions, mode, middle) >= number {
            low = middle;
        } else {
            high = middle - 1;
        }
    }
    Lsn(low)
}

/// The greatest position of any session.
fn greatest_position(sessions: &[Candidate], mode: Mode) -> u64
    ensures { All (λ c. position mode c ≤ result) sessions.now }
{
    sessions.iter().map(|c| c.position(mode)).max().unwrap_or(0)
}

/// How many of the candidates have this position or a later one.
fn candidates_at(sessions: &[Candidate], mode: Mode, end: u64) -> usize
    ensures { result ≡ count_by (reaches mode end) (candidates sessions.now) }
{
    sessions
        .iter()
        .filter(|c| c.counts() && c.position(mode) >= end)
        .count()
}

/// The least position of the first candidates, which are so many.
fn released_by_first(sessions: &[Candidate], mode: Mode, number: usize) -> Lsn
    requires some { 0 < number }
    requires enough { number ≤ length (candidates sessions.now) }
    ensures met { MetByFirst number (candidates sessions.now) mode result }
    ensures greatest { (later : ℕ) → result < later → ¬ MetByFirst number (candidates sessions.now) mode later }
{
    let priority = last_priority(sessions, number);
    let session = last_session(sessions, number, priority);
    Lsn(least_position(sessions, mode, priority, session).unwrap_or(0))
}

/// The best priority up to which there are so many candidates.
fn last_priority(sessions: &[Candidate], number: usize) -> u32
    requires { number ≤ length (candidates sessions.now) }
    ensures enough { number ≤ count_by (is_up_to result) (candidates sessions.now) }
    ensures least { (earlier : ℕ) → earlier < result → count_by (is_up_to earlier) (candidates sessions.now) < number }
{
    let mut low = 0;
    let mut high = greatest_priority(sessions);
    while low < high {
        let middle = low + (high - low) / 2;
        if candidates_up_to(sessions, middle) >= number {
            high = middle;
        } else {
            low = middle + 1;
        }
    }
    high
}

/// The oldest connection up to which, at this priority and all better ones, there are so many candidates.
fn last_session(sessions: &[Candidate], number: usize, priority: u32) -> u64
    requires { number ≤ count_by (is_up_to priority) (candidates sessions.now) }
    ensures enough { number ≤ count_by (is_within priority result) (candidates sessions.now) }
    ensures least { (earlier : ℕ) → earlier < result → count_by (is_within priority earlier) (candidates sessions.now) < number }
{
    let mut low = 0;
    let mut high = greatest_session(sessions);
    while low < high {
        let middle = low + (high - low) / 2;
        if candidates_within(sessions, priority, middle) >= number {
            high = middle;
        } else {
            low = middle + 1;
        }
    }
    high
}

/// The greatest priority of any session.
fn greatest_priority(sessions: &[Candidate]) -> u32
    ensures { All (λ c. c.priority ≤ result) sessions.now }
{
    sessions.iter().map(|c| c.priority).max().unwrap_or(0)
}

/// The greatest number of any session.
fn greatest_session(sessions: &[Candidate]) -> u64
    ensures { All (λ c. c.session ≤ result) sessions.now }
{
    sessions.iter().map(|c| c.session).max().unwrap_or(0)
}

/// How many of the candidates have this priority or a better one.
fn candidates_up_to(sessions: &[Candidate], priority: u32) -> usize
    ensures { result ≡ count_by (is_up_to priority) (candidates sessions.now) }
{
    sessions
        .iter()
        .filter(|c| c.counts() && c.is_up_to(priority))
        .count()
}

/// How many of the candidates have a better priority, or this one and this connection or an older one.
fn candidates_within(sessions: &[Candidate], priority: u32, session: u64) -> usize
    ensures { result ≡ count_by (is_within priority session) (candidates sessions.now) }
{
    sessions
        .iter()
        .filter(|c| c.counts() && c.is_within(priority, session))
        .count()
}

/// The least position of the candidates that have a better priority, or this one and this connection or an older one.
fn least_position(sessions: &[Candidate], mode: Mode, priority: u32, session: u64) -> Option<u64>
    ensures { result ≡ reduce min (map (position mode) (filter (λ c. counts c && is_within priority session c) sessions.now)) }
{
    sessions
        .iter()
        .filter(|c| c.counts() && c.is_within(priority, session))
        .map(|c| c.position(mode))
        .min()
}
