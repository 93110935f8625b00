//! A hub of one's own.
ghost use Rattle.std.specs.Prelude.{◌≡◌};
ghost use Rattle.repl_hub.specs.Holding.{Goes, Holds};
ghost use Rattle.repl_hub.specs.Leaving.{HubLeaves};
ghost use Rattle.repl_hub.specs.Pass.{Passed, nothing};
ghost use Rattle.repl_hub.specs.State.{HubView};
ghost use Rattle.repl_hub.specs.Step.{HubStep};

use crate::event::HubEvent;
use crate::hub::HubState;
use crate::pass::Hub;
use crate::reply::HubReply;
use repl_disk::Disk;
use std::marker::PhantomData;
use std::sync::Wait;

/// A hub for one thread, whose state is in the pass. It tells no history. Nobody else makes events on it, so what waits for
/// one waits without end: a commit that waits for standbys is for a hub that others use too.
#[derive(Drop)]
pub struct SoloHub<D: Disk> {
    disk: PhantomData<D>,
}

/// The one pass of such a hub.
#[derive(Drop)]
pub struct SoloPass<D: Disk> {
    pub state: HubState<D>,
}

impl<D: Disk> SoloHub<D> {
    pub fn new() -> SoloHub<D> {
        SoloHub { disk: PhantomData }
    }
}

impl<D: Disk> Hub for SoloHub<D> {
    type Pass = SoloPass<D>;

    ghost of = { λ hub pass. Unit {0} };

    ghost opened = { λ pass h. ⊥ };

    ghost known = { λ pass. nothing };

    fn act<R: Wait>(&self, _rt: &R, pass: &mut SoloPass<D>, event: HubEvent) -> HubReply {
        pass.state.step(event)
    }

    fn wait_for_change<R: Wait>(&self, _rt: &R, _pass: &mut SoloPass<D>) {}
}
