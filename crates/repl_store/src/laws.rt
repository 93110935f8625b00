//! Laws of what files stand for, of why they are refused, and of others' files beside them.
ghost use Rattle.std.specs.Prelude.{◌≡◌, ◌<◌, ◌⊎◌, ℕ};
ghost use Rattle.repl_disk.specs.Folder.{Folder};
ghost use Rattle.repl_store.specs.Apart.{OnlyApart, SameButApart};
ghost use Rattle.repl_store.specs.Backing.{Backs, Before, LeavesOne, State};
ghost use Rattle.repl_store.specs.Durable.{Durable, IsKnown, StandsFor};
ghost use Rattle.repl_store.specs.Head.{Head};
ghost use Rattle.repl_store.specs.Refusal.{IsOfDisk, IsRefusal};
ghost use Rattle.repl_store.specs.declared.fault.MountFault.{MountFault};

use repl_disk::Disk;

/// Files stand for one store at most: a mount has one thing to find.
pub fn one_durable()
    ensures { (size : ℕ) (folder : Folder) (a b : Durable) → StandsFor size folder a → StandsFor size folder b → a ≡ b }
{}

/// Files that stand for a store are refused for nothing that is wrong with them: a mount fails over them for want of memory
/// or a failure of the disk alone.
pub fn stands_unrefused()
    ensures { (size : ℕ) (folder : Folder) (d : Durable) (fault : MountFault) → 0 < size → StandsFor size folder d
        → IsRefusal size folder fault → IsOfDisk fault }
{}

/// The files of a folder are refused for one thing at most: two refusals are one, but for want of memory and failures of the
/// disk, which may come over any files.
pub fn one_refusal_of_files()
    ensures { (size : ℕ) (folder : Folder) (a b : MountFault) → IsRefusal size folder a → IsRefusal size folder b
        → IsOfDisk a ⊎ IsOfDisk b ⊎ (a ≡ b) }
{}

/// One number is the greatest of a timeline and of those whose history is there.
pub fn one_known()
    ensures some { (folder : Folder) (own : ℕ) → (known : ℕ) × IsKnown folder own known }
    ensures one { (folder : Folder) (own a b : ℕ) → 0 < own → IsKnown folder own a → IsKnown folder own b → a ≡ b }
{}

/// A store goes on with its files where another changes only those that are none of its: they read as they did, and a crash
/// at any moment leaves what the store kept.
pub fn others_apart<D: Disk>()
    ensures stands { (size : ℕ) (old new : Folder) (d : Durable) → SameButApart old new → StandsFor size old d → StandsFor size new d }
    ensures backs { (old new : D) (head : Head) (s : State) → OnlyApart (D.state old) (D.state new) → Backs (D.state old) head s
        → Backs (D.state new) head s }
    ensures moments { (old new : D) (head : Head) (s : State) → OnlyApart (D.state old) (D.state new) → Backs (D.state old) head s
        → LeavesOne (D.state old) (D.state new) head.size (Before s) }
{}
