//! What holds of every file of slots, of every list and of every place.
ghost use Rattle.std.specs.Prelude.{◌≡◌, ◌≤◌, ℕ, List, All, Option, Ok, Err, Some, false};
ghost use Rattle.repl_disk.specs.Folder.{Folder};
ghost use Rattle.repl_slots.specs.Slot.{IsFloor, IsKeptFrom, SlotList, confirmed, held, is_session};
ghost use Rattle.repl_slots.specs.SlotFile.{Entry, FileStops, Spells, entries_of};
ghost use Rattle.repl_slots.specs.Stored.{Mounted, Stores};
ghost use Rattle.repl_slots.specs.declared.slot.Slot.{Slot};
ghost use Rattle.repl_slots.specs.declared.fault.SlotFault.TheVariants as fault;

/// A list of slots has one file.
pub fn one_file()
    ensures { (entries : List Entry) (a b : List ℕ) → Spells entries a → Spells entries b → a ≡ b }
{}

/// A file spells one list of slots at most.
pub fn one_list()
    ensures { (a b : List Entry) (file : List ℕ) → Spells a file → Spells b file → a ≡ b }
{}

/// A file goes wrong at one place at most.
pub fn one_place()
    ensures { (file : List ℕ) (a b : ℕ) → FileStops file a → FileStops file b → a ≡ b }
{}

/// A file that spells slots goes wrong nowhere.
pub fn no_place()
    ensures { (entries : List Entry) (file : List ℕ) (place : ℕ) → Spells entries file → FileStops file place → ⊥ }
{}

/// What was saved is mounted: from files that store these slots, exactly these are.
pub fn saved_is_mounted()
    ensures slots { (entries : List Entry) (folder : Folder) (list : SlotList) → Stores entries folder → Mounted folder (Ok list) → entries_of list.slots ≡ entries }
    ensures taken { (entries : List Entry) (folder : Folder) (place : ℕ) → Stores entries folder → Mounted folder (Err (fault.BadSlots place)) → ⊥ }
{}

/// Confirming a position lowers no restart position, and changes no slot of another session.
pub fn confirmed_rises()
    ensures raised { (session at before : ℕ) (slot : Slot) → slot.restart ≡ Some before → (after : ℕ) × ((confirmed session at slot).restart ≡ Some after) × (before ≤ after) }
    ensures others { (session at : ℕ) (slot : Slot) → is_session session slot.owner ≡ false → confirmed session at slot ≡ slot }
{}

/// Where the log is kept from the floor on, it is kept for each slot.
pub fn floor_keeps()
    ensures { (slots : List Slot) (floor : Option ℕ) → IsFloor slots floor → All (λ slot. IsKeptFrom floor (held slot)) slots }
{}
