// The steps of a turn on its table.
ghost use Rattle.std.specs.Prelude.{◌≡◌, ◌<◌, ◌^◌, Some, [], ◌∷◌, length};
ghost use Rattle.repl_turn.specs.declared.rule.Stage.TheVariants.{Idle, Waiting, Holding};
ghost use Rattle.repl_turn.specs.Rule.{IsSameSeat, at_stage, IsHeld, Gives, Watched};

use crate::bell::{Bell, FOR_CHANGE, FOR_TURN, Patience};
use crate::machine::Machine;
use crate::rule::{Draw, Give, Look, Said, Token, Watch};
use crate::turn::Turn;
use std::snapshot::Snapshot;
use std::sync::Wait;
use std::sync::atomic::Ordering::SeqCst;

// No more tickets than this are drawn, so that no word wraps.
const TICKETS: u64 = 1 << 63;

// The word that counts the events made. It is far from word 0, which counts the tickets drawn, so that who draws one does
// not slow down those who look whether theirs is served.
const SERVED: usize = 16;

impl<M: Machine> Turn<M> {
    // Draws the next ticket, which `likely` guesses at first. Where all are drawn it does not return.
    pub(crate) fn draw<R: Wait>(&self, rt: &R, token: &mut Token<M>, likely: u64) -> u64
        requires seat { token.old.table_id ≡ self.now.table }
        requires idle { (token.old.me.0.stage ≡ Idle) × (token.old.me.1 ≡ []) }
        ensures seat { IsSameSeat token.old token.new }
        ensures drawn { token.new.me ≡ (at_stage token.old.me.0 (Waiting result), []) }
    {
        let mut ticket = likely;
        for _ in rt.forever() {
            if ticket < TICKETS {
                let found = self
                    .table
                    .shared
                    .compare_exchange::<Draw>(token, 0, ticket, ticket + 1);
                if found == ticket {
                    return ticket;
                }
                ticket = found;
            }
        }
        unreachable!()
    }

    // Waits until the ticket is served, and takes the machine.
    pub(crate) fn await_turn<R: Wait>(&self, rt: &R, token: &mut Token<M>, ticket: u64)
        requires seat { token.old.table_id ≡ self.now.table }
        requires waits { (token.old.me.0.stage ≡ Waiting ticket) × (token.old.me.1 ≡ []) }
        ensures seat { IsSameSeat token.old token.new }
        ensures held { (x : M) × (token.new.me ≡ (at_stage token.old.me.0 (Holding ticket x), (0, x) ∷ [])) }
    {
        let mut patience = Patience::new(FOR_TURN);
        let mut slept = false;
        let mut early = false;
        for _ in rt.forever() {
            let served = self.table.shared.load::<Look>(token, SERVED);
            if served == ticket {
                self.note_early(early, 1);
                return;
            }
            early = slept;
            if patience.is_over(served, ticket.saturating_sub(served)) {
                self.note_early(early, 0);
                self.sleep_before(rt, ticket);
                slept = true;
            }
        }
        unreachable!()
    }

    // Where a thread with this ticket sleeps. Few tickets are out at a time, so seldom do two threads share a bell.
    fn bell(&self, ticket: u64) -> &Bell {
        &self.bells[(ticket % 64) as usize]
    }

    // Sleeps until the ticket is served. It may return too early.
    fn sleep_before<R: Wait>(&self, rt: &R, ticket: u64) {
        let bell = self.bell(ticket);
        let heard = bell.listen();
        if self.table.shared.peek(SERVED) != ticket {
            bell.sleep(rt, heard);
        }
    }

    // Where a thread was woken before its turn, says whether that was of use.
    fn note_early(&self, early: bool, useful: u64) {
        if early && self.early.load(SeqCst) != useful {
            self.early.store(useful, SeqCst);
        }
    }

    // Gives the turn on, with the machine back in its place.
    pub(crate) fn give<J: Said<M::Event, M::Reply>>(
        &self,
        token: &mut Token<M>,
        asked: Snapshot<M::Event>,
        reply: &M::Reply,
    ) -> u64
        requires said { J.call ≡ Some (asked.value, reply.now) }
        requires seat { token.old.table_id ≡ self.now.table }
        requires held { IsHeld M.steps asked.value reply.now token.old.me }
        ensures seat { IsSameSeat token.old token.new }
        ensures gave { Gives M.steps asked.value reply.now token.old.me.0 result token.new.me }
    {
        self.table.shared.fetch_add::<Give<J>>(token, SERVED, 1)
    }

    // Wakes who waits with this ticket, which is served now. Where events are short it wakes the one after it too, so
    // that it is awake when its turn comes: else, once all are asleep, each event would wait for a wake-up. It tries that
    // now and then, and goes on with it as long as it is of use. Where the event before was not quiet, it wakes all who
    // wait for a change.
    pub(crate) fn wake(&self, served: u64, quiet: bool) {
        self.bell(served).ring();
        if self.early.load(SeqCst) == 1 || served % 64 == 0 {
            self.bell(served.wrapping_add(1)).ring();
        }
        if !quiet {
            self.loud.fetch_max(served, SeqCst);
            self.change.ring();
        }
    }

    // Waits until an event was made that is not quiet and that is not among the first `count`, and returns how long the
    // history is then.
    pub(crate) fn await_change<R: Wait>(&self, rt: &R, token: &mut Token<M>, count: u64) -> u64
        requires seat { token.old.table_id ≡ self.now.table }
        requires idle { token.old.me.0.stage ≡ Idle }
        requires counted { count ≡ length token.old.me.0.seen }
        ensures seat { IsSameSeat token.old token.new }
        ensures longer { count < result }
        ensures watched { Watched M.steps token.old.me result token.new.me }
    {
        for _ in rt.forever() {
            self.sleep_past(rt, count);
            let found = self.table.shared.load::<Watch>(token, SERVED);
            if found > count {
                return found;
            }
        }
        unreachable!()
    }

    // Sleeps until a loud event is made after the first `count`.
    fn sleep_past<R: Wait>(&self, rt: &R, count: u64) {
        let mut patience = Patience::new(FOR_CHANGE);
        for _ in rt.forever() {
            let loud = self.loud.load(SeqCst);
            if loud > count {
                return;
            }
            if patience.is_over(loud, 1) {
                let heard = self.change.listen();
                if self.loud.load(SeqCst) <= count {
                    self.change.sleep(rt, heard);
                }
            }
        }
        unreachable!()
    }
}
