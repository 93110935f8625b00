//! How many bytes the spellings take, counted without writing them. The counts stop at 2^64 - 1.
ghost use Rattle.std.specs.Prelude.{◌≡◌, ℕ, ◌+◌, length, List};
ghost use Rattle.std.specs.List.{flat_map};
ghost use Rattle.repl_message.specs.Message.{string, field, column, error_field, pair, counted, ended, int16, startup_body, front_body, back_body, length_field};
ghost use Rattle.repl_message.specs.Encoding.{capped};

use crate::back::{Back, Column, ErrorField, Field};
use crate::front::Front;
use crate::message::Message;
use crate::startup::{Pair, Startup};
use repl_text::Text;

fn of_string(text: &Text) -> u64
    ensures { result ≡ capped (length (string text.now)) }
{
    (text.len() as u64).saturating_add(1)
}

fn of_field(entry: &Field) -> u64
    ensures { result ≡ capped (length (field entry.now)) }
{
    of_string(&entry.name).saturating_add(18)
}

fn of_column(entry: &Column) -> u64
    ensures { result ≡ capped (length (column entry.now)) }
{
    match entry {
        None => 4,
        Some(bytes) => (bytes.len() as u64).saturating_add(4),
    }
}

fn of_error_field(entry: &ErrorField) -> u64
    ensures { result ≡ capped (length (error_field entry.now)) }
{
    of_string(&entry.text).saturating_add(1)
}

fn of_fields(fields: &[Field]) -> u64
    ensures { result ≡ capped (length (counted field fields.now)) }
{
    let mut sum = 2u64;
    for entry in fields {
        sum = sum.saturating_add(of_field(entry));
    }
    sum
}

fn of_columns(columns: &[Column]) -> u64
    ensures { result ≡ capped (length (counted column columns.now)) }
{
    let mut sum = 2u64;
    for entry in columns {
        sum = sum.saturating_add(of_column(entry));
    }
    sum
}

fn of_error_fields(fields: &[ErrorField]) -> u64
    ensures { result ≡ capped (length (ended error_field fields.now)) }
{
    let mut sum = 1u64;
    for entry in fields {
        sum = sum.saturating_add(of_error_field(entry));
    }
    sum
}

fn of_formats(formats: &[u16]) -> u64
    ensures { result ≡ capped (length (counted int16 formats.now)) }
{
    (formats.len() as u64).saturating_mul(2).saturating_add(2)
}

/// The length of a server message's body.
pub(crate) fn of_back_body(message: &Back) -> u64
    ensures { result ≡ capped (length (back_body message.now)) }
{
    match message {
        Back::AuthenticationOk => 4,
        Back::ParameterStatus { name, value } => of_string(name).saturating_add(of_string(value)),
        Back::BackendKeyData { .. } => 8,
        Back::ReadyForQuery(_) => 1,
        Back::RowDescription(fields) => of_fields(fields.as_slice()),
        Back::DataRow(columns) => of_columns(columns.as_slice()),
        Back::CommandComplete(tag) => of_string(tag),
        Back::ErrorResponse(fields) | Back::NoticeResponse(fields) => {
            of_error_fields(fields.as_slice())
        }
        Back::CopyData(bytes) => bytes.len() as u64,
        Back::CopyDone => 0,
        Back::CopyBoth { formats, .. } => of_formats(formats.as_slice()).saturating_add(1),
    }
}

fn of_pair(entry: &Pair) -> u64
    ensures { result ≡ capped (length (pair entry.now)) }
{
    of_string(&entry.name).saturating_add(of_string(&entry.value))
}

fn of_pairs(pairs: &[Pair]) -> u64
    ensures { result ≡ capped (length (ended pair pairs.now)) }
{
    let mut sum = 1u64;
    for entry in pairs {
        sum = sum.saturating_add(of_pair(entry));
    }
    sum
}

/// The length of a startup packet's body.
pub(crate) fn of_startup_body(message: &Startup) -> u64
    ensures { result ≡ capped (length (startup_body message.now)) }
{
    match message {
        Startup::Params(pairs) => of_pairs(pairs.as_slice()).saturating_add(4),
        Startup::Ssl | Startup::Gss => 4,
        Startup::Cancel { .. } => 12,
    }
}

/// The length of a client message's body.
pub(crate) fn of_front_body(message: &Front) -> u64
    ensures { result ≡ capped (length (front_body message.now)) }
{
    match message {
        Front::Query(text) | Front::CopyFail(text) => of_string(text),
        Front::CopyData(bytes) => bytes.len() as u64,
        Front::CopyDone | Front::Terminate => 0,
    }
}

/// The value of the message's length field, which counts itself and the body. A message that is read, or that is
/// within its limit, has at most 1,048,576; of another the count stops at 2^64 - 1.
pub fn length_of(message: &Message) -> u64
    ensures { result ≡ capped (length_field message.now) }
{
    let body = match message {
        Message::Startup(packet) => of_startup_body(packet),
        Message::Front(message) => of_front_body(message),
        Message::Back(message) => of_back_body(message),
    };
    body.saturating_add(4)
}
