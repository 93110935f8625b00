//! What events make of sessions.
ghost use Rattle.std.specs.Prelude.{map};
ghost use Rattle.repl_sync.specs.State.{stops};
ghost use Rattle.repl_sync.specs.Sync.{Releases};
ghost use Rattle.repl_sync.specs.Inside.{AllStopped, ChangesOne, Disconnects, IsKept, IsReady, effect, sessions_of, state_of, with_sessions};

use crate::parts::Parts;
use crate::release::release;
use crate::session::{Change, Entry, place_of};

/// Makes a change of a session, and releases the waits that are due by it. False where there is no such session. Takes
/// no memory.
pub(crate) fn change_session(parts: &mut Parts, session: u64, change: Change) -> bool
    requires { IsKept parts.old }
    ensures kept { IsKept parts.new }
    ensures changed { ChangesOne parts.old session (effect change) result parts.new }
{
    let Some(place) = place_of(&parts.entries, session) else {
        return false;
    };
    parts.entries[place].change(change);
    release(parts);
    true
}

/// Makes all sessions stop to stream, and releases the waits that are due by it. Takes no memory.
pub(crate) fn stop_all(parts: &mut Parts)
    requires { IsKept parts.old }
    ensures kept { IsKept parts.new }
    ensures stopped { Releases (with_sessions parts.old (map stops (sessions_of parts.old.entries.items))) (state_of parts.new) }
{
    stop_each(&mut parts.entries);
    release(parts);
}

/// Makes each of them stop to stream.
fn stop_each(entries: &mut [Entry])
    ensures { AllStopped entries.old entries.new }
{
    for entry in entries.iter_mut() {
        entry.stop();
    }
}

/// Forgets a session, and releases the waits that are due without it. False where there is no such session. Takes no
/// memory.
pub(crate) fn forget(parts: &mut Parts, session: u64) -> bool
    requires { IsKept parts.old }
    ensures kept { IsKept parts.new }
    ensures forgotten { Disconnects parts.old session result parts.new }
{
    let Some(place) = place_of(&parts.entries, session) else {
        return false;
    };
    let _gone = parts.entries.remove(place);
    release(parts);
    true
}
