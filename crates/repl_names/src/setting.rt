ghost use Rattle.std.specs.Prelude.{◌≡◌, MatchOption, IsTrue, ◌↔◌, map};
ghost use Rattle.std.specs.Char.{to_ascii_lowercase};
ghost use Rattle.repl_token.specs.Token.{Lowers};
ghost use Rattle.repl_names.specs.declared.setting.Setting.{Setting};
ghost use Rattle.repl_names.specs.Setting.{SaysSetting, setting_mode, setting_word};

use crate::quorum::Mode;

/// How far a commit waits for the standbys (manual, `synchronous_commit`).
#[derive(Clone, Copy, Debug, PartialEq, Eq)]
pub enum Setting {
    /// Until they have applied it.
    RemoteApply,
    /// Until they have flushed it.
    On,
    /// Until they have written it.
    RemoteWrite,
    /// For the local flush alone.
    Local,
    /// For nothing.
    Off,
}

impl Setting {
    /// What of the standbys' reports a commit waits for, or `None` where it waits for none.
    pub fn mode(self) -> Option<Mode>
        ensures { result ≡ setting_mode self }
    {
        match self {
            Setting::RemoteApply => Some(Mode::Apply),
            Setting::On => Some(Mode::Flush),
            Setting::RemoteWrite => Some(Mode::Write),
            Setting::Local | Setting::Off => None,
        }
    }

    /// The setting's word: `remote_apply`, `on`, `remote_write`, `local` or `off`.
    pub fn word(self) -> &'static [u8]
        ensures { result.now ≡ setting_word self }
    {
        match self {
            Setting::RemoteApply => b"remote_apply",
            Setting::On => b"on",
            Setting::RemoteWrite => b"remote_write",
            Setting::Local => b"local",
            Setting::Off => b"off",
        }
    }

    /// The setting of this word, with letters of either case, or `None` where it is that of none.
    pub fn from_word(text: &[u8]) -> Option<Setting>
        ensures { MatchOption result ((v : Setting) → ¬ SaysSetting text.now v) (λ v. SaysSetting text.now v) }
    {
        if says(text, b"remote_apply") {
            return Some(Setting::RemoteApply);
        }
        if says(text, b"on") {
            return Some(Setting::On);
        }
        if says(text, b"remote_write") {
            return Some(Setting::RemoteWrite);
        }
        if says(text, b"local") {
            return Some(Setting::Local);
        }
        says(text, b"off").then_some(Setting::Off)
    }
}

/// Whether the text is this word, which is given in small letters.
fn says(text: &[u8], word: &[u8]) -> bool
    requires { map to_ascii_lowercase word.now ≡ word.now }
    ensures { IsTrue result ↔ Lowers text.now word.now }
{
    text.eq_ignore_ascii_case(word)
}
