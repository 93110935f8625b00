//! The size of segments as its logarithm, and as the setting `wal_segment_size` says it.
ghost use Rattle.std.specs.Prelude.{◌≡◌, ℕ, ◌-◌, ◌^◌, ◌≤◌, [], get_or, MatchOption};
ghost use Rattle.std.specs.Option.{SomeIff};
ghost use Rattle.repl_lsn.specs.Segment.{IsSetting, settings};

use crate::segment::SegSize;

impl SegSize {
    /// The size of 2 ^ `log2` bytes, if segments may have it: from 20 to 30.
    pub fn from_log2(log2: u32) -> Option<SegSize>
        ensures { SomeIff result ((20 ≤ log2) × (log2 ≤ 30)) (2 ^ log2) }
    {
        if (20..=30).contains(&log2) {
            SegSize::new(1 << log2)
        } else {
            None
        }
    }

    /// The size's logarithm, from 20 to 30.
    pub fn log2(self) -> u32
        ensures value { 2 ^ result ≡ self }
        ensures range { (20 ≤ result) × (result ≤ 30) }
    {
        self.bytes().ilog2()
    }

    /// What `SHOW wal_segment_size` says of the size: `1MB` to `512MB`, or `1GB` (PostgreSQL 17 manual, section "Preset
    /// Options").
    pub fn setting(self) -> &'static [u8]
        ensures { IsSetting result.now self }
    {
        setting_of(self.log2())
    }

    /// The size of which `SHOW wal_segment_size` says this text, or `None` where it says it of none.
    pub fn from_setting(text: &[u8]) -> Option<SegSize>
        ensures { MatchOption result ((size : ℕ) → ¬ IsSetting text.now size) (λ size. IsSetting text.now size) }
    {
        for log2 in 20..31 {
            if text == setting_of(log2) {
                return SegSize::from_log2(log2);
            }
        }
        None
    }
}

/// The text of the size of 2 ^ `log2` bytes.
fn setting_of(log2: u32) -> &'static [u8]
    requires least { 20 ≤ log2 }
    requires most { log2 ≤ 30 }
    ensures { result.now ≡ get_or settings (log2 - 20) [] }
{
    match log2 {
        20 => b"1MB",
        21 => b"2MB",
        22 => b"4MB",
        23 => b"8MB",
        24 => b"16MB",
        25 => b"32MB",
        26 => b"64MB",
        27 => b"128MB",
        28 => b"256MB",
        29 => b"512MB",
        _ => b"1GB",
    }
}
