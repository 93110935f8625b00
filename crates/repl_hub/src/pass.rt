//! What sessions stand on.
ghost use Rattle.repl_hub.specs.Pass.{Asks, CanReply, Passed, Sees, Stays};
ghost use Rattle.repl_hub.specs.State.{HubView};

use crate::event::HubEvent;
use crate::reply::HubReply;
use std::sync::Wait;

/// Whatever makes events on one hub, one at a time, for those who have a pass. A pass belongs to the hub from which it came, and
/// tells in contracts what was seen through it: a beginning of the hub's one history, in which its own events stand once each.
/// A hub that does not tell that has no state from which it says to have begun (`opened`).
pub trait Hub {
    /// What one caller holds.
    type Pass;

    /// The pass is one of this hub.
    ghost of: { Self → Self.Pass → Type 0 };

    /// The hub began in this state.
    ghost opened: { Self.Pass → HubView → Type 0 };

    /// What was seen through the pass.
    ghost known: { Self.Pass → Passed };

    /// Makes an event, after all that the pass has seen, and replies as a step of a hub does.
    fn act<R: Wait>(&self, rt: &R, pass: &mut Self::Pass, event: HubEvent) -> HubReply
        requires { of self.now pass.old }
        ensures of { of self.now pass.new }
        ensures replies { CanReply event result }
        ensures opened { Stays opened pass.old pass.new }
        ensures acts { Asks opened known pass.old event result pass.new };

    /// Waits until an event was made that the pass has not seen. Where nobody else makes any it comes back at once.
    fn wait_for_change<R: Wait>(&self, rt: &R, pass: &mut Self::Pass)
        requires { of self.now pass.old }
        ensures of { of self.now pass.new }
        ensures opened { Stays opened pass.old pass.new }
        ensures watches { Sees opened known pass.old pass.new };
}
