// A word on which threads sleep until it is rung. It is odd while a thread may be asleep on it, and never falls.
//
// No wake-up is missed, where who waits calls `listen`, then looks whether what it waits for has come, and only if not
// calls `sleep`, and who makes it come does so first and then calls `ring`. Each step is sequentially consistent.
// If it comes before that look, the look finds it. If it comes after it, `ring` reads the word after `listen`, so it
// finds it odd, or higher than `listen` left it: in the first case it raises the word and then wakes all sleepers, in
// the second another ring has raised it since. So the word differs from what `sleep` was given, and the thread does
// not fall asleep, or it slept before the word was raised and the wake reaches it. The comparison takes the low half of
// the word. Between `listen` and `sleep` it is raised by 2 at most for each other thread that listens meanwhile, so it
// does not come round to the same number before 2^31 of them did.
use std::hint;
use std::sync::Wait;
use std::sync::atomic::AtomicU64;
use std::sync::atomic::Ordering::SeqCst;

// What a thread sleeps on is the low half of a word.
const LOW_HALF: u64 = 1 << 32;

// How long who waits for the turn looks, and finds nothing new, before it sleeps, counted in pauses of the processor, of
// some 10 to 50 nanoseconds. That is about what a sleep and its wake-up cost, so who sleeps in the end has lost as much
// again. With less, one event that is late puts all to sleep who wait, and each event after it waits for a wake-up.
pub(crate) const FOR_TURN: u32 = 400;

// The same of who waits for a change, which is seldom near.
pub(crate) const FOR_CHANGE: u32 = 160;

// How often who is next looks without a pause.
const EAGER: u32 = 60;

#[derive(Drop)]
pub(crate) struct Bell {
    word: AtomicU64,
}

impl Bell {
    pub(crate) fn new() -> Bell {
        Bell {
            word: AtomicU64::new(0),
        }
    }

    // From now on `ring` wakes this thread. Look once more, and then sleep on what this returns.
    pub(crate) fn listen(&self) -> u64 {
        self.word.fetch_or(1, SeqCst) | 1
    }

    // Sleeps until a ring since that `listen`. It may return for no reason.
    pub(crate) fn sleep<R: Wait>(&self, rt: &R, heard: u64) {
        self.word.park(rt, (heard % LOW_HALF) as u32);
    }

    // Wakes all who sleep here. It costs a load where there are none.
    pub(crate) fn ring(&self) {
        if self.word.load(SeqCst) % 2 == 1 {
            self.word.fetch_add(1, SeqCst);
            self.word.wake_all();
        }
    }
}

// How long a thread looks before it sleeps.
#[derive(Drop)]
pub(crate) struct Patience {
    whole: u32,
    spent: u32,
    last: u64,
}

impl Patience {
    pub(crate) fn new(whole: u32) -> Patience {
        Patience {
            whole,
            spent: 0,
            last: 0,
        }
    }

    // Whether the thread looked long enough and found nothing new, and is to sleep now. Each number that was not
    // found before gives it new patience: where the turn goes round fast, nobody falls asleep. Who is next looks all the
    // time at first; others look more seldom, by how many are before them, so that their looks do not slow down the turn,
    // and for no longer.
    pub(crate) fn is_over(&mut self, found: u64, ahead: u64) -> bool {
        if found != self.last {
            self.last = found;
            self.spent = 0;
        }
        if self.spent >= self.whole {
            self.spent = 0;
            return true;
        }
        if ahead > 1 || self.spent >= EAGER {
            self.spent = self.spent.saturating_add(rest(ahead));
        } else {
            self.spent += 1;
        }
        false
    }
}

// Pauses once for each of so many, 8 at most, and returns how often.
fn rest(ahead: u64) -> u32 {
    let pauses = ahead.clamp(1, 8) as u32;
    for _ in 0..pauses {
        hint::spin_loop();
    }
    pauses
}
