//! The whole store is judged.
ghost use Rattle.std.specs.Prelude.{◌≡◌, ◌%◌, ◌/◌, IfOk, IfErr, MatchResult};
ghost use Rattle.repl_control.specs.declared.control.TheConstants.{VERSION_1_SIZE};
ghost use Rattle.repl_exit.specs.declared.damage.DamageReason.TheVariants as reason;
ghost use Rattle.repl_disk.specs.Folder.{IfTold};
ghost use Rattle.repl_effects.specs.Counts.{Stood};
ghost use Rattle.repl_store.specs.Backing.{OnlyReads};
ghost use Rattle.repl_store.specs.Durable.{segment_file};
ghost use Rattle.repl_store.specs.Head.{status_of};
ghost use Rattle.repl_admin.specs.Checking.{Checked, IsToldAt};
ghost use Rattle.repl_admin.specs.Damages.{IsDamagedOr, IsToldOfSlots};
ghost use Rattle.repl_admin.specs.Files.{HasSlots};
ghost use Rattle.repl_admin.specs.Lines.{check_lines};
ghost use Rattle.repl_admin.specs.Printing.{IsPrinted};
ghost use Rattle.repl_wal.specs.State.{identity_in};

use crate::damage::{control_damage, damage_of, end_of_store};
use crate::lines::{check_lines, identity_in};
use crate::refusal::end_of_node;
use crate::tended::{Tended, sent_end};
use repl_check::{CheckFault, check_log};
use repl_control::{VERSION_1_SIZE, version_1_size};
use repl_disk::Disk;
use repl_exit::DamageReason;
use repl_io::{Sink, write_all};
use repl_lsn::{History, Lsn, seg_of};
use repl_node::{Identity, mount_slots};
use repl_record::WalkReason;
use repl_store::{Store, segment_file};
use std::alloc::Global;

/// The byte of a control at which the whole end stands.
const WHOLE_PLACE: u64 = 32;

/// The byte of a control at which the start of the last whole record stands.
const LAST_PLACE: u64 = 48;

const _: () = prove!(WHOLE_PLACE == 32);

const _: () = prove!(LAST_PLACE == 48);

/// Judges the node on the disk: its control, its slots, its history, whether its segments are there, and then its whole log.
/// Prints `ok` and the line of `status` where all fits, or tells the first place that does not. Takes memory for one piece of the
/// log, however long that is, and for the slots. The files stay as they are.
pub fn check<D: Disk, K: Sink>(alloc: Global, disk: D, out: &mut K) -> (Tended, D)
    ensures checked { Checked result.0 (D.state disk) (D.state result.1) (K.sink out.old) (K.sink out.new) }
    ensures keeps { D.keeps disk result.1 }
{
    match judge_slots(alloc, disk) {
        Ok(disk) => check_store(alloc, disk, out),
        Err(ended) => ended,
    }
}

/// Judges the file of the slots; where that is wrong, the control first.
#[tactic(auto, using(crate::proofs::Ending::slots_told))]
fn judge_slots<D: Disk>(alloc: Global, disk: D) -> Result<D, (Tended, D)>
    ensures right { IfOk result (λ left. IfTold (D.state disk).files HasSlots) }
    ensures reads { IfOk result (λ left. OnlyReads (D.state disk) (D.state left) × Stood (D.state disk).faults (D.state left).faults) }
    ensures told { IfErr result (λ ended. IsToldOfSlots ended.0 (D.state disk) (D.state ended.1)) }
    ensures keeps { MatchResult result (λ left. D.keeps disk left) (λ ended. D.keeps disk ended.1) }
{
    match mount_slots(alloc, disk) {
        Ok((_slots, disk)) => Ok(disk),
        Err((fault, disk)) => Err((end_of_node(alloc, fault), disk)),
    }
}

/// Judges the store of a disk whose slots are right.
fn check_store<D: Disk, K: Sink>(alloc: Global, disk: D, out: &mut K) -> (Tended, D)
    ensures checked { IfTold (D.state disk).files HasSlots → Checked result.0 (D.state disk) (D.state result.1) (K.sink out.old) (K.sink out.new) }
    ensures keeps { D.keeps disk result.1 }
{
    match Store::mount(alloc, disk) {
        Ok(store) => {
            let mut store = store;
            let checked = check_log(alloc, &mut store);
            let end = tell(alloc, &store, checked, out);
            (end, store.into_disk())
        }
        Err((fault, disk)) => (end_of_store(alloc, fault), disk),
    }
}

/// Tells what was found of the log of a store.
fn tell<D: Disk, K: Sink>(
    alloc: Global,
    store: &Store<D>,
    checked: Result<(), CheckFault>,
    out: &mut K,
) -> Tended
    ensures { MatchResult checked (λ _. IsPrinted (check_lines (identity_in (status_of store.now.head))) result (K.sink out.old) (K.sink out.new))
        (λ fault. IsToldAt store.now.head.path fault result × (K.sink out.new ≡ K.sink out.old)) }
{
    match checked {
        Ok(()) => print_check(alloc, &identity_in(&store.status()), out),
        Err(fault) => end_of_check(alloc, store.path(), fault),
    }
}

/// Writes the lines of a store in which all fits.
fn print_check<K: Sink>(alloc: Global, identity: &Identity, out: &mut K) -> Tended
    ensures { IsPrinted (check_lines identity.now) result (K.sink out.old) (K.sink out.new) }
{
    match check_lines(alloc, identity) {
        Ok(lines) => sent_end(write_all(out, lines.as_bytes())),
        Err(_) => Tended::Memory,
    }
}

/// How it ends where a check of the log of a store on this path answered so. Takes memory for the name of a file.
pub(crate) fn end_of_check(alloc: Global, history: &History, fault: CheckFault) -> Tended
    ensures { IsToldAt history.now fault result }
{
    match fault {
        CheckFault::Whole => control_damage(alloc, WHOLE_PLACE),
        CheckFault::Last => control_damage(alloc, LAST_PLACE),
        CheckFault::Bad { at, why } => log_damage(alloc, history, at, why),
        CheckFault::Memory => Tended::Memory,
        CheckFault::Broken | CheckFault::DiskFault => Tended::DiskFault,
    }
}

/// The log is wrong at this position.
pub(crate) fn log_damage(alloc: Global, history: &History, at: Lsn, why: WalkReason) -> Tended
    ensures { IsDamagedOr (segment_file VERSION_1_SIZE history.now (at / VERSION_1_SIZE)) (at % VERSION_1_SIZE) (reason.Bad why) result }
{
    let size = version_1_size();
    let place = at.0 % u64::from(VERSION_1_SIZE);
    match segment_file(alloc, history, seg_of(at, size), size) {
        Ok(name) => damage_of(alloc, &name, place, DamageReason::Bad(why)),
        Err(_) => Tended::Memory,
    }
}
