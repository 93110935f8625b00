ghost use Rattle.std.specs.Prelude.{◌≡◌, ◌↔◌, IfSome, IsSome, map};
ghost use Rattle.std.specs.Char.{to_ascii_lowercase};
ghost use Rattle.repl_text.specs.Text.{IsText};
ghost use Rattle.repl_text.specs.SlotName.{IsSlotName};
ghost use Rattle.repl_cmd.specs.Name.{IsParameterName};

use repl_text::{is_slot_name, is_text};
use std::marker::Model;

/// The name of a replication slot: 1 to 63 lower-case letters, digits and underscores (PostgreSQL 17 manual,
/// section "Replication Slots").
#[derive(Debug, Drop)]
pub struct SlotName {
    bytes: Vec<u8>,
}

impl Model for SlotName {
    ghost use Rattle.std.specs.Prelude.{ℕ, List};
    ghost use Rattle.repl_text.specs.SlotName.{IsSlotName};

    ghost Value = { List ℕ };

    ghost view = { λ n. n.bytes.items };

    ghost invariant = { λ n. IsSlotName n.bytes.items };
}

impl SlotName {
    /// The name of these bytes, which are not copied, or `None` exactly where they are none.
    pub fn new(bytes: Vec<u8>) -> Option<SlotName>
        ensures made { IfSome result (λ name. name ≡ bytes.items) }
        ensures taken { IsSome result ↔ IsSlotName bytes.items }
    {
        if is_slot_name(&bytes) {
            Some(SlotName { bytes })
        } else {
            None
        }
    }

    /// The bytes.
    pub fn as_slice(&self) -> &[u8]
        ensures value { result.now ≡ self.now }
        ensures name { IsSlotName self.now }
    {
        &self.bytes
    }
}

/// The name of a run-time parameter, as `SHOW` has it: without a zero byte and without capitals, since these are
/// read as small letters.
#[derive(Debug, Drop)]
pub struct ParameterName {
    bytes: Vec<u8>,
}

impl Model for ParameterName {
    ghost use Rattle.std.specs.Prelude.{ℕ, List};
    ghost use Rattle.repl_cmd.specs.Name.{IsParameterName};

    ghost Value = { List ℕ };

    ghost view = { λ n. n.bytes.items };

    ghost invariant = { λ n. IsParameterName n.bytes.items };
}

impl ParameterName {
    /// The name of these bytes, in which capitals become small letters, or `None` exactly where a zero byte stands
    /// in them. They are not copied.
    pub fn new(bytes: Vec<u8>) -> Option<ParameterName>
        ensures made { IfSome result (λ name. name ≡ map to_ascii_lowercase bytes.items) }
        ensures taken { IsSome result ↔ IsText bytes.items }
    {
        if is_text(&bytes) {
            Some(ParameterName {
                bytes: lowered(bytes),
            })
        } else {
            None
        }
    }

    /// The bytes.
    pub fn as_slice(&self) -> &[u8]
        ensures value { result.now ≡ self.now }
        ensures name { IsParameterName self.now }
    {
        &self.bytes
    }
}

/// The bytes with small letters for capitals, in their own memory.
pub(crate) fn lowered(mut bytes: Vec<u8>) -> Vec<u8>
    ensures { result.items ≡ map to_ascii_lowercase bytes.items }
{
    bytes.make_ascii_lowercase();
    bytes
}
