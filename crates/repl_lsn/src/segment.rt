ghost use Rattle.std.specs.Prelude.{◌≡◌, ℕ, ◌+◌, ◌*◌, ◌/◌, ◌^◌, ◌<◌, ◌≤◌, length, slice_index, Ok, IfOk, IfErr, string_bytes};
ghost use Rattle.std.specs.Char.{digit_value};
ghost use Rattle.std.specs.Option.{SomeIff};
ghost use Rattle.repl_lsn.specs.Segment.{IsSegSize, Fits, Names, IsNameFault, IsDigit, IsNumberAt, LacksDigitFrom, in_four_gib, segment_name};

use crate::position::{Lsn, PlaceFault};
use crate::timeline::Tli;
use std::alloc::{AllocError, Global};
use std::marker::Model;

/// How many digits write each of the three numbers of a name, and where its second and third number and its end stand.
pub(crate) const NUMBER_DIGITS: usize = 8;

const HIGH_PLACE: usize = NUMBER_DIGITS;

const LOW_PLACE: usize = 2 * NUMBER_DIGITS;

pub(crate) const NAME_LENGTH: usize = 3 * NUMBER_DIGITS;

/// The size of the log's segments in bytes: a power of two from 1 MiB to 1 GiB (PostgreSQL 17 manual, section "WAL
/// Internals", and `initdb --wal-segsize`).
#[derive(Clone, Copy, Debug, PartialEq, Eq)]
pub struct SegSize(pub u32);

impl Model for SegSize {
    ghost use Rattle.std.specs.Prelude.{ℕ};
    ghost use Rattle.repl_lsn.specs.Segment.{IsSegSize};

    ghost Value = { ℕ };

    ghost view = { λ s. s.0 };

    ghost invariant = { λ s. IsSegSize s.0 };

    ghost inverse = { λ n. record { 0 = n } };
}

/// The sizes that segments may have, in bytes: 1 MiB and 1 GiB.
const LEAST_SIZE: u32 = 1 << 20;

const LARGEST_SIZE: u32 = 1 << 30;

impl SegSize {
    /// The size of so many bytes, if segments may have it.
    pub fn new(bytes: u32) -> Option<SegSize>
        ensures { SomeIff result (IsSegSize bytes) bytes }
    {
        let in_range = (LEAST_SIZE..=LARGEST_SIZE).contains(&bytes);
        if in_range && bytes.is_power_of_two() {
            Some(SegSize(bytes))
        } else {
            None
        }
    }

    /// How many bytes a segment has.
    pub fn bytes(self) -> u32
        ensures value { result ≡ self }
        ensures size { IsSegSize self }
    {
        self.0
    }

    /// How many segments 2^32 bytes of the log have.
    fn in_four_gib(self) -> u64
        ensures value { result ≡ in_four_gib self }
        ensures whole { result * self ≡ 2 ^ 32 }
        ensures few { result ≤ 4096 }
        ensures size { IsSegSize self }
    {
        (1 << 32) / u64::from(self.0)
    }
}

/// The number of a segment, from 0, counted from the log's position 0/0.
#[derive(Clone, Copy, Debug, PartialEq, Eq)]
pub struct SegNo(pub u64);

impl Model for SegNo {
    ghost use Rattle.std.specs.Prelude.{ℕ, ◌<◌, ◌^◌};

    ghost Value = { ℕ };

    ghost view = { λ n. n.0 };

    ghost invariant = { λ n. n.0 < 2 ^ 64 };

    ghost inverse = { λ n. record { 0 = n } };
}

/// The segment in which the position is.
pub fn seg_of(at: Lsn, size: SegSize) -> SegNo
    ensures value { result ≡ at / size }
    // The position is not before the segment's start, and before the next one's.
    ensures inside { (result * size ≤ at) × (at < result * size + size) }
    ensures fits { Fits size result }
{
    SegNo(at.0 / u64::from(size.0))
}

/// The first position of the segment.
pub fn seg_start(seg: SegNo, size: SegSize) -> Lsn
    requires { Fits size seg }
    ensures { result ≡ seg * size }
{
    Lsn(seg.0 * u64::from(size.0))
}

/// The name of the segment's file: 24 hexadecimal digits in upper case. Takes memory for it.
pub fn seg_name(alloc: Global, tli: Tli, seg: SegNo, size: SegSize) -> Result<String, AllocError>
    requires { Fits size seg }
    ensures { IfOk result (λ name. string_bytes name ≡ segment_name size tli seg) }
{
    let count = size.in_four_gib();
    let (timeline, high, low) = (tli.0, seg.0 / count, seg.0 % count);
    format!(in alloc; "{timeline:08X}{high:08X}{low:08X}")
}

/// The timeline and the segment that the name of a file with so large segments says.
///
/// A digit that is wrong or missing is refused at its place, a timeline 0 at 0, a third number of 2^32 / `size` or more
/// at 16, and more bytes at 24; the numbers are judged from left to right.
pub fn parse_seg_name(text: &[u8], size: SegSize) -> Result<(Tli, SegNo), PlaceFault>
    // What is read is what the text names.
    ensures read { IfOk result (λ found. Names size text.now found.0 found.1) }
    // What the text names is read.
    ensures only { (tli seg : ℕ) → Names size text.now tli seg → result ≡ Ok (tli, seg) }
    // Each refusal has its cause, and is told where it has.
    ensures refused { IfErr result (λ fault. IsNameFault size text.now fault.place) }
    ensures size { IsSegSize size }
{
    let count = size.in_four_gib();
    let timeline = number_at(text, 0)?;
    let tli = Tli::new(timeline).ok_or(PlaceFault { place: 0 })?;
    let high = number_at(text, HIGH_PLACE)?;
    let low = number_at(text, LOW_PLACE)?;
    if u64::from(low) >= count {
        return Err(PlaceFault { place: LOW_PLACE });
    }
    if text.len() > NAME_LENGTH {
        return Err(PlaceFault { place: NAME_LENGTH });
    }
    Ok((tli, SegNo(u64::from(high) * count + u64::from(low))))
}

/// The number that the eight digits at `start` write. A fault at the first place that has no digit.
pub(crate) fn number_at(text: &[u8], start: usize) -> Result<u32, PlaceFault>
    requires { start ≤ length text.now }
    ensures read { IfOk result (λ number. IsNumberAt text.now start number) }
    ensures refused { IfErr result (λ fault. LacksDigitFrom text.now start fault.place) }
{
    let mut value = 0;
    for place in start..start + NUMBER_DIGITS {
        let Some(digit) = digit_at(text, place) else {
            return Err(PlaceFault { place });
        };
        value = value * 16 + digit;
    }
    Ok(value)
}

/// What the digit at this place, 0 to 9 or A to F, counts.
fn digit_at(text: &[u8], place: usize) -> Option<u32>
    ensures { SomeIff result ((place < length text.now) × IsDigit (slice_index text.now place)) (digit_value (slice_index text.now place)) }
{
    let byte = *text.get(place)?;
    match byte {
        b'0'..=b'9' => Some(u32::from(byte - b'0')),
        b'A'..=b'F' => Some(u32::from(byte - b'A') + 10),
        _ => None,
    }
}
