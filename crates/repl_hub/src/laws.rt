//! What holds after every event, in whatever order events come.
ghost use Rattle.std.specs.Prelude.{◌≡◌, ℕ, true, Some};
ghost use Rattle.repl_hub.specs.Certain.{AreCertain, FallsOnlyBySwitch, WasFlushed};
ghost use Rattle.repl_hub.specs.Quiet.{awaited, is_quiet};
ghost use Rattle.repl_hub.specs.State.{HubView};
ghost use Rattle.repl_hub.specs.Step.{HubStep};
ghost use Rattle.repl_hub.specs.declared.event.HubEvent.{HubEvent};
ghost use Rattle.repl_hub.specs.declared.reply.HubReply.{HubReply};
ghost use Rattle.repl_names.specs.declared.quorum.Mode.{Mode};
ghost use Rattle.repl_sync.specs.State.{IsState, Released, Waiting, fate_of};
ghost use Rattle.repl_sync.specs.declared.certificate.Certificate.{Certificate};
ghost use Rattle.repl_wal.specs.State.{IsLog};

/// A commit that waits stands on a primary, and is certain there: so it was where nothing happened yet, and each event keeps it.
pub fn waits_are_certain()
    ensures { (h m : HubView) (event : HubEvent) (reply : HubReply) → HubStep h event reply m → AreCertain h → AreCertain m }
{}

/// A certificate names an end that was flushed when it was given.
pub fn released_was_flushed()
    ensures { (h m : HubView) (event : HubEvent) (reply : HubReply) → IsState h.sync → HubStep h event reply m → AreCertain h
        → (ticket end : ℕ) (mode : Mode) (proof : Certificate) → fate_of h.sync.tickets ticket ≡ Some (Waiting end mode)
        → fate_of m.sync.tickets ticket ≡ Some (Released proof) → WasFlushed h m ticket end mode proof }
{}

/// Nobody waits for what a quiet event does.
pub fn quiet_events_move_nothing()
    ensures { (h m : HubView) (event : HubEvent) (reply : HubReply) → is_quiet event ≡ true → IsState h.sync → HubStep h event reply m
        → awaited m ≡ awaited h }
{}

/// The flushed end falls only where another timeline begins, and never below the end of whole records.
pub fn flushed_end_falls_by_switch()
    ensures { (h m : HubView) (event : HubEvent) (reply : HubReply) → IsLog h.node.log → HubStep h event reply m
        → FallsOnlyBySwitch h.node.log m.node.log event }
{}
