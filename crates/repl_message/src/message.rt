use crate::back::Back;
use crate::front::Front;
use crate::startup::Startup;

/// The fewest bytes of a startup packet: its length and its code.
pub const STARTUP_LEAST: u32 = 8;

const _: () = prove!(STARTUP_LEAST == 8);

/// The most bytes of a startup packet.
pub const STARTUP_LIMIT: u32 = 10_000;

const _: () = prove!(STARTUP_LIMIT == 10_000);

/// The greatest length field of a message but CopyData.
pub const MESSAGE_LIMIT: u32 = 1_048_576;

const _: () = prove!(MESSAGE_LIMIT == 1_048_576);

/// The greatest length field of CopyData.
pub const COPY_DATA_LIMIT: u32 = 262_144;

const _: () = prove!(COPY_DATA_LIMIT == 262_144);

/// Which end of a connection sends.
#[derive(Clone, Copy, Debug, PartialEq, Eq)]
pub enum Side {
    /// The client, or a standby.
    Front,
    /// The server.
    Back,
}

/// What is read next.
#[derive(Clone, Copy, Debug, PartialEq, Eq)]
pub enum Phase {
    /// A startup packet, which has no type byte.
    Startup,
    /// A message of the client.
    Front,
    /// A message of the server.
    Back,
    /// Nothing: the session is over.
    Ended,
}

/// Any message.
#[derive(Debug, Drop)]
pub enum Message {
    Startup(Startup),
    Front(Front),
    Back(Back),
}
