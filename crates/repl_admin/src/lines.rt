//! The lines that the commands write.
ghost use Rattle.std.specs.Prelude.{◌≡◌, ◌++◌, IfOk, codes, string_bytes};
ghost use Rattle.repl_admin.specs.Lines.{ok_line, role_word, status_line, check_lines};
ghost use Rattle.repl_wal.specs.State.{identity_in};

use repl_node::Identity;
use repl_store::{Role, StoreStatus};
use std::alloc::{AllocError, Global};

/// What is written where nothing is to be told.
pub(crate) const OK_LINE: &[u8] = b"ok\n";

/// The word of a role.
fn role_word(role: Role) -> &'static str
    ensures { result.now ≡ role_word role }
{
    match role {
        Role::Primary => "primary",
        Role::Standby => "standby",
    }
}

/// What a store's status says of the node that it is of.
pub(crate) fn identity_in(status: &StoreStatus) -> Identity
    ensures { result ≡ identity_in status.now }
{
    Identity {
        sysid: status.sysid,
        role: status.role,
        tli: status.tli,
        floor: status.floor,
        whole: status.whole,
        flushed: status.flushed,
        written: status.written,
    }
}

/// The line that says what a node is and how far its log stands.
pub(crate) fn status_line(alloc: Global, status: &Identity) -> Result<String, AllocError>
    ensures { IfOk result (λ line. string_bytes line ≡ status_line status.now) }
{
    let sysid = status.sysid;
    let role = role_word(status.role);
    let tli = status.tli;
    let floor = status.floor;
    let whole = status.whole;
    let flushed = status.flushed;
    format!(in alloc; "{sysid} {role} {tli} {floor} {whole} {flushed}\n")
}

/// The same line after the one that says that nothing is wrong.
pub(crate) fn check_lines(alloc: Global, status: &Identity) -> Result<String, AllocError>
    ensures { IfOk result (λ lines. string_bytes lines ≡ check_lines status.now) }
{
    let line = status_line(alloc, status)?;
    format!(in alloc; "ok\n{line}")
}
