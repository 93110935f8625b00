ghost use Rattle.std.specs.Prelude.{◌≡◌, ◌++◌, List, Some, IfOk, OnOk, string_bytes, length, ◌≤◌};
ghost use Rattle.std.specs.List.{flat_map, repeat, AllByRecursion};
ghost use Rattle.repl_text.specs.Text.{IsText};
ghost use Rattle.repl_message.specs.Message.{back_spelling, counted, column};
ghost use Rattle.repl_identify.specs.Answer.{greeting, identification, answer_bytes, answer_fields, answer_row, text_field, int8_field, IsWithin};

use crate::identity::SystemIdentity;
use crate::stage::Session;
use bytes::Bytes;
use repl_wire::{
    Back, Column, Columns, EncodeFault, Field, Fields, Text, TransactionStatus, encode_back,
};
use std::alloc::{AllocError, Global};

/// The bytes that answer the session.
pub(crate) fn answer(
    alloc: Global,
    identity: &SystemIdentity,
    session: Session,
) -> Result<Vec<u8>, AllocError>
    ensures { IfOk result (λ bytes. bytes.items ≡ answer_bytes identity.now session.requests session.questions) }
{
    let mut once = Vec::new(alloc);
    encode_all(&identification(alloc, identity)?, &mut once)?;
    let mut bytes = vec![in alloc; b'N'; session.requests]?;
    encode_all(&greeting(alloc, 1)?, &mut bytes)?;
    append_times(&once, session.questions, &mut bytes)?;
    Ok(bytes)
}

/// Appends the piece so many times.
fn append_times(piece: &[u8], times: usize, out: &mut Vec<u8>) -> Result<(), AllocError>
    ensures { OnOk result (out.new.items ≡ out.old.items ++ repeat times piece.now) }
{
    for _ in 0..times {
        out.extend_from_slice(piece)?;
    }
    Ok(())
}

/// Appends the messages, one after another.
fn encode_all(messages: &[Back], out: &mut Vec<u8>) -> Result<(), AllocError>
    requires { AllByRecursion IsWithin messages.now }
    ensures { OnOk result (out.new.items ≡ out.old.items ++ flat_map back_spelling messages.now) }
{
    for message in messages {
        match encode_back(message, out) {
            Ok(()) => {}
            Err(EncodeFault::Memory) => return Err(AllocError),
            Err(EncodeFault::TooLong { .. }) => unreachable!(),
        }
    }
    Ok(())
}

/// What a client is told first, in the session with this number.
fn greeting(alloc: Global, session: u32) -> Result<Vec<Back>, AllocError>
    ensures { IfOk result (λ messages. messages.items ≡ greeting session) }
{
    let mut messages = Vec::with_capacity(alloc, 7)?;
    messages.push(Back::AuthenticationOk)?;
    messages.push(setting(alloc, "server_version", "17.0")?)?;
    messages.push(setting(alloc, "client_encoding", "UTF8")?)?;
    messages.push(setting(alloc, "integer_datetimes", "on")?)?;
    messages.push(setting(alloc, "standard_conforming_strings", "on")?)?;
    messages.push(Back::BackendKeyData {
        pid: session,
        key: 0,
    })?;
    messages.push(Back::ReadyForQuery(TransactionStatus::Idle))?;
    Ok(messages)
}

fn setting(alloc: Global, name: &str, value: &str) -> Result<Back, AllocError>
    requires name { IsText name.now }
    requires value { IsText value.now }
    ensures { IfOk result (λ message. message ≡ Back.ParameterStatus name.now value.now) }
{
    Ok(Back::ParameterStatus {
        name: Text::copied(alloc, name.as_bytes())?,
        value: Text::copied(alloc, value.as_bytes())?,
    })
}

/// The answer to IDENTIFY_SYSTEM.
fn identification(alloc: Global, identity: &SystemIdentity) -> Result<Vec<Back>, AllocError>
    ensures made { IfOk result (λ messages. messages.items ≡ identification identity.now) }
    ensures within { IfOk result (λ messages. AllByRecursion IsWithin messages.items) }
{
    let mut messages = Vec::with_capacity(alloc, 4)?;
    messages.push(Back::RowDescription(description(alloc)?))?;
    messages.push(Back::DataRow(row(alloc, identity)?))?;
    messages.push(Back::CommandComplete(Text::copied(alloc, b"IDENTIFY_SYSTEM")?))?;
    messages.push(Back::ReadyForQuery(TransactionStatus::Idle))?;
    Ok(messages)
}

/// The four columns of the answer.
fn description(alloc: Global) -> Result<Fields, AllocError>
    ensures { IfOk result (λ fields. fields ≡ answer_fields) }
{
    let mut fields = Vec::with_capacity(alloc, 4)?;
    fields.push(text_field(alloc, "systemid")?)?;
    fields.push(int8_field(alloc, "timeline")?)?;
    fields.push(text_field(alloc, "xlogpos")?)?;
    fields.push(text_field(alloc, "dbname")?)?;
    match Fields::new(fields) {
        Some(fields) => Ok(fields),
        None => unreachable!(),
    }
}

fn text_field(alloc: Global, name: &str) -> Result<Field, AllocError>
    requires { IsText name.now }
    ensures { IfOk result (λ field. field ≡ text_field name.now) }
{
    Ok(Field {
        name: Text::copied(alloc, name.as_bytes())?,
        table: 0,
        attribute: 0,
        type_oid: 25,
        size: -1,
        modifier: -1,
        format: 0,
    })
}

fn int8_field(alloc: Global, name: &str) -> Result<Field, AllocError>
    requires { IsText name.now }
    ensures { IfOk result (λ field. field ≡ int8_field name.now) }
{
    Ok(Field {
        name: Text::copied(alloc, name.as_bytes())?,
        table: 0,
        attribute: 0,
        type_oid: 20,
        size: 8,
        modifier: -1,
        format: 0,
    })
}

/// The answer's one row.
fn row(alloc: Global, identity: &SystemIdentity) -> Result<Columns, AllocError>
    ensures made { IfOk result (λ columns. columns ≡ answer_row identity.now) }
    ensures small { OnOk result (length (counted column (answer_row identity.now)) ≤ 100) }
{
    let system = identity.system;
    let timeline = identity.timeline.number();
    let mut columns = Vec::with_capacity(alloc, 4)?;
    columns.push(text_column(system.to_string(alloc)?)?)?;
    columns.push(text_column(timeline.to_string(alloc)?)?)?;
    columns.push(text_column(identity.flushed.text(alloc)?)?)?;
    columns.push(None)?;
    match Columns::new(columns) {
        Some(columns) => Ok(columns),
        None => unreachable!(),
    }
}

/// A column that is not null.
fn text_column(text: String) -> Result<Column, AllocError>
    ensures { IfOk result (λ made. made ≡ Some (string_bytes text)) }
{
    Ok(Some(Bytes::from_vec(text.into_bytes())?))
}
