//! The rule for the names of replication slots, on which commands and stores of slots stand alike.
ghost use Rattle.std.specs.Prelude.{◌≡◌, ◌↔◌, IsTrue};
ghost use Rattle.repl_text.specs.SlotName.{IsSlotName, is_slot_byte};

/// The most bytes of a replication slot's name.
pub const SLOT_NAME_LIMIT: usize = 63;

// What a slot's name is depends on this number.
const _: () = prove!(SLOT_NAME_LIMIT == 63);

/// Whether the bytes are the name of a replication slot: 1 to 63 lower-case letters, digits and underscores (PostgreSQL
/// 17 manual, section "Replication Slots").
pub fn is_slot_name(bytes: &[u8]) -> bool
    ensures { IsTrue result ↔ IsSlotName bytes.now }
{
    !bytes.is_empty() && bytes.len() <= SLOT_NAME_LIMIT && bytes.iter().all(|c| is_slot_byte(*c))
}

fn is_slot_byte(c: u8) -> bool
    ensures { result ≡ is_slot_byte c }
{
    c.is_ascii_lowercase() || c.is_ascii_digit() || c == b'_'
}
