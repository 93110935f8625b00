ghost use Rattle.std.specs.Prelude.{◌≡◌, ◌^◌, ◌↔◌, IsTrue};
ghost use Rattle.repl_lsn.specs.Segment.{IsSegSize};
ghost use Rattle.repl_control.specs.Control.{FitsFields, IsControl, IsPrev, IsRight, fresh_control, fields_of, role_number};
ghost use Rattle.repl_control.specs.Control as field;

use repl_lsn::{Lsn, SegSize, Tli, seg_of, seg_start};

/// How many bytes a control file has.
pub const CONTROL_SIZE: usize = 56;

const _: () = prove!(CONTROL_SIZE == 56);

/// How many bytes a segment has in a store whose control is of version 1: 16 MiB.
pub const VERSION_1_SIZE: u32 = 16_777_216;

const _: () = prove!(VERSION_1_SIZE == 16_777_216);

/// The last position up to which bytes are flushed: 2^63.
const FLUSHED_LIMIT: u64 = 1 << 63;

/// The size of segments in a store whose control is of version 1.
pub fn version_1_size() -> SegSize
    ensures value { result ≡ VERSION_1_SIZE }
    ensures size { IsSegSize result }
{
    SegSize(VERSION_1_SIZE)
}

/// What a store is: the one that commits are made in, or a copy of such a store.
#[derive(Clone, Copy, Debug, PartialEq, Eq)]
pub enum Role {
    Primary,
    Standby,
}

impl Role {
    /// The number that spells it.
    pub(crate) fn number(self) -> u8
        ensures { result ≡ role_number self }
    {
        match self {
            Role::Primary => 1,
            Role::Standby => 2,
        }
    }
}

/// What the control file of a store says.
#[derive(Clone, Copy, Debug, PartialEq, Eq)]
pub struct Control {
    pub role: Role,
    /// The identifier of the system whose log it is.
    pub sysid: u64,
    /// The timeline that the store is on.
    pub tli: Tli,
    /// The magic number of the log's pages.
    pub magic: u16,
    /// Where the bytes end that are on disk: at most 2^63.
    pub flushed: Lsn,
    /// Where the last whole record ends.
    pub whole: Lsn,
    /// Where the bytes begin that are kept.
    pub floor: Lsn,
    /// Where the last whole record starts; 0 without one.
    pub prev: Lsn,
}

impl Control {
    /// The control of a new store: on timeline 1, without a record, its log beginning at the size of a segment.
    pub fn fresh(role: Role, sysid: u64, magic: u16, size: SegSize) -> Control
        ensures value { result ≡ fresh_control role sysid magic size }
        ensures right { IsControl size result }
        ensures fits { FitsFields result }
    {
        let start = Lsn(u64::from(size.bytes()));
        Control {
            role,
            sysid,
            tli: Tli(1),
            magic,
            flushed: start,
            whole: start,
            floor: start,
            prev: Lsn(0),
        }
    }

    /// Whether the control is right in a store with so large segments: then it is read back where it is written.
    pub fn is_fit(&self, size: SegSize) -> bool
        ensures { IsTrue result ↔ IsControl size self.now }
    {
        self.has_flushed(size) && self.has_whole(size) && self.has_floor(size) && self.has_prev()
    }

    /// Whether the flushed end is right.
    pub(crate) fn has_flushed(&self, size: SegSize) -> bool
        ensures { IsTrue result ↔ IsRight size (fields_of self.now) field.flushed }
    {
        let in_range = (u64::from(size.bytes())..=FLUSHED_LIMIT).contains(&self.flushed.0);
        in_range && (self.role == Role::Standby || self.flushed == self.whole)
    }

    /// Whether the whole end is right.
    pub(crate) fn has_whole(&self, size: SegSize) -> bool
        ensures { IsTrue result ↔ IsRight size (fields_of self.now) field.whole }
    {
        let start = u64::from(size.bytes());
        self.whole.0 % 8 == 0 && start <= self.whole.0 && self.whole <= self.flushed
    }

    /// Whether the floor is right.
    pub(crate) fn has_floor(&self, size: SegSize) -> bool
        ensures { IsTrue result ↔ IsRight size (fields_of self.now) field.floor }
    {
        let start = u64::from(size.bytes());
        let last = seg_start(seg_of(self.whole, size), size);
        self.floor.0 % start == 0 && start <= self.floor.0 && self.floor <= last
    }

    /// Whether the start of the last whole record is right.
    pub(crate) fn has_prev(&self) -> bool
        ensures { IsTrue result ↔ IsPrev self.now.whole self.now.prev }
    {
        self.prev < self.whole
    }
}
