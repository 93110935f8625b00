//! Whether a store may go over to another timeline.
ghost use Rattle.std.specs.Prelude.{◌≡◌, ◌<◌, ◌≤◌, ◌∷◌, [], ◌++◌, ◌↔◌, IsTrue, IfOk, MatchOption, codes, length};
ghost use Rattle.repl_lsn.specs.History.{canonical, last_switch};
ghost use Rattle.repl_lsn.specs.declared.history.TheConstants.{HISTORY_LIMIT};
ghost use Rattle.repl_lsn.specs.Path.{steps};
ghost use Rattle.repl_store.specs.Backing.{CanSwitch};

use crate::checks::{control, lies_within};
use repl_control::{Control, Role};
use repl_disk::Disk;
use repl_lsn::{History, Lsn, Tli, history_text};
use repl_store::Store;
use std::alloc::{AllocError, Global};

/// Whether the store may go over to this child of its path. Takes memory for the child's text; without it the answer is no.
pub fn can_switch<D: Disk>(
    alloc: Global,
    store: &Store<D>,
    child: &History,
    role: Role,
    whole: Lsn,
    prev: Lsn,
) -> bool
    requires { steps child.now ≡ steps store.now.head.path ++ record { tli = store.now.head.path.own; switch = last_switch child.now.parents } ∷ [] }
    ensures { IsTrue result → CanSwitch store.now.head child.now role whole prev }
{
    let status = store.status();
    let next = Control {
        role,
        tli: child.own(),
        flushed: last_switch(child),
        whole,
        prev,
        ..control(store)
    };
    let size = status.ident.size;
    next.flushed <= status.flushed
        && next.is_fit(size)
        && lies_within(child, u64::from(size.bytes()), whole)
        && is_short(alloc, child)
}

/// Whether the text of the history is as short as it has to be.
fn is_short(alloc: Global, history: &History) -> bool
    ensures { IsTrue result → length (canonical history.now) ≤ HISTORY_LIMIT }
{
    match history_text(alloc, history) {
        Ok(_) => true,
        Err(_) => false,
    }
}

/// The history of a timeline that leaves the path's own at this position; `None` where none may. Takes memory.
pub fn child_at(
    alloc: Global,
    path: &History,
    tli: Tli,
    switch: Lsn,
) -> Result<Option<History>, AllocError>
    ensures { IfOk result (λ child. MatchOption child (¬ ((path.now.own < tli) × (last_switch path.now.parents ≤ switch)))
        (λ child. steps child ≡ steps path.now ++ record { tli = path.now.own; switch = last_switch child.parents } ∷ [])) }
{
    if path.own() >= tli || last_switch(path) > switch {
        return Ok(None);
    }
    Ok(Some(path.child(alloc, tli, switch)?))
}

/// The last position at which a timeline was left, 0 where none was.
fn last_switch(path: &History) -> Lsn
    ensures { result ≡ last_switch path.now.parents }
{
    match path.parents().as_slice().split_last() {
        Some((part, _)) => part.switch,
        None => Lsn(0),
    }
}
