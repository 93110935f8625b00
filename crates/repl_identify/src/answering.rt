//! A session is answered for an identity.
use crate::answer::answer;
use crate::identity::SystemIdentity;
use crate::session::read_session;
use crate::stage::Session;
use repl_filter::{Converter, Refused};
use std::alloc::Global;

/// The most bytes of input that `identify` reads.
pub const INPUT_LIMIT: usize = 65_536;

// The contracts take it from the code, so it is held to its number here.
const _: () = prove!(INPUT_LIMIT == 65_536);

/// What the server says of itself that answers.
#[derive(Drop)]
pub(crate) struct Answering {
    identity: SystemIdentity,
}

impl Answering {
    ghost use Rattle.std.specs.Prelude.{◌≡◌};

    /// The answers of a server with this identity.
    pub(crate) fn new(identity: &SystemIdentity) -> Answering
        ensures { result.identity ≡ identity.now }
    {
        Answering {
            identity: *identity,
        }
    }
}

impl Converter for Answering {
    ghost use Rattle.repl_identify.specs.declared.stage.Session.{Session};
    ghost use Rattle.repl_identify.specs.declared.answering.TheConstants.{INPUT_LIMIT};
    ghost use Rattle.repl_identify.specs.Session.{IsNoSessionAt};
    ghost use Rattle.repl_identify.specs.Identify.{Asks, session_answer};
    ghost use Rattle.repl_identify.specs.Apart.{not_both};

    ghost Meaning = { Session };

    ghost limit = { λ _. INPUT_LIMIT };

    ghost says = { λ _ bytes session. Asks bytes session };

    ghost text = { λ a session. session_answer a.identity session };

    ghost is_wrong = { λ _ bytes place. IsNoSessionAt bytes place };

    fn limit(&self) -> usize {
        INPUT_LIMIT
    }

    fn convert(&self, alloc: Global, bytes: &[u8]) -> Result<Vec<u8>, Refused> {
        let session = read_session(alloc, bytes)?;
        Ok(answer(alloc, &self.identity, session)?)
    }

    ghost apart = { λ _ bytes session place is wrong. not_both bytes session.requests session.questions place is wrong };
}
