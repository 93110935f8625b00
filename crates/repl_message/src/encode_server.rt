//! Encoding what a server sends.
ghost use Rattle.std.specs.Prelude.{◌≡◌, ℕ, ◌+◌, ◌<◌, ◌≤◌, ◌^◌, ◌∷◌, ◌++◌, [], length, OnOk, OnErr, Err, FitsSigned};
ghost use Rattle.repl_message.specs.Message.{string, field, column, error_field, counted, ended, int16, int32, signed16, signed32, back_kind, back_body, back_spelling, back_limit, status_byte, FitsField, FitsColumn, FitsErrorField, FitsBack, Spells};
ghost use Rattle.repl_message.specs.Encoding.{capped, Appends, FitsNumbers};
ghost use Rattle.repl_message.specs.declared.message.Message.{Message};
ghost use Rattle.std.specs.Int.{w16, w32};
ghost use Rattle.std.specs.List.{AllByRecursion};
ghost use Rattle.repl_message.specs.declared.message.Phase.{Phase};

use crate::back::{
    Back, Column, Columns, ErrorField, ErrorFields, Field, Fields, Formats, LIST_LIMIT,
    TransactionStatus,
};
use crate::fault::EncodeFault;
use crate::framing::{length_field, put_head, whole_or_none};
use crate::lengths::of_back_body;
use crate::message::{COPY_DATA_LIMIT, MESSAGE_LIMIT};
use crate::put::{
    put_byte, put_bytes, put_i16, put_i32, put_pair, put_string, put_strings, put_u16, put_u32,
};
use std::alloc::AllocError;

/// Appends the one spelling of a server's message. Where that is not done, `out` is as it was.
pub fn encode_back(message: &Back, out: &mut Vec<u8>) -> Result<(), EncodeFault>
    ensures ok { OnOk result (out.new.items ≡ out.old.items ++ back_spelling message.now) }
    // A reader of the server's messages takes it back.
    ensures read { OnOk result (Spells Phase.Back (Message.Back message.now) (back_spelling message.now)) }
    // The length field is above its limit exactly where the message is refused for it.
    ensures within { OnOk result (length (back_body message.now) + 4 ≤ back_limit message.now) }
    ensures too_long { (n : ℕ) → result ≡ Err (EncodeFault.TooLong n) →
        (back_limit message.now < length (back_body message.now) + 4) × (n ≡ capped (length (back_body message.now) + 4)) }
    ensures err { OnErr result (out.new.items ≡ out.old.items) }
{
    let said = length_field(of_back_body(message), limit_of(message))?;
    let start = out.len();
    let written = put_back(out, message, said);
    whole_or_none(out, start, written)
}

/// The greatest length field of the message.
fn limit_of(message: &Back) -> u32
    ensures { result ≡ back_limit message.now }
{
    match message {
        Back::CopyData(_) => COPY_DATA_LIMIT,
        _ => MESSAGE_LIMIT,
    }
}

/// Appends the message, whose length field this is.
fn put_back(out: &mut Vec<u8>, message: &Back, said: u32) -> Result<(), AllocError>
    requires { said ≡ length (back_body message.now) + 4 }
    ensures put { Appends result out.old.items out.new.items (back_spelling message.now) }
    ensures fits { OnOk result (FitsBack message.now) }
{
    put_head(out, kind_of(message), said)?;
    put_body(out, message)
}

/// The message's type byte.
fn kind_of(message: &Back) -> u8
    ensures { result ≡ back_kind message.now }
{
    match message {
        Back::AuthenticationOk => b'R',
        Back::ParameterStatus { .. } => b'S',
        Back::BackendKeyData { .. } => b'K',
        Back::ReadyForQuery(_) => b'Z',
        Back::RowDescription(_) => b'T',
        Back::DataRow(_) => b'D',
        Back::CommandComplete(_) => b'C',
        Back::ErrorResponse(_) => b'E',
        Back::NoticeResponse(_) => b'N',
        Back::CopyData(_) => b'd',
        Back::CopyDone => b'c',
        Back::CopyBoth { .. } => b'W',
    }
}

/// Appends a column of RowDescription.
fn put_field(out: &mut Vec<u8>, entry: &Field) -> Result<(), AllocError>
    ensures put { Appends result out.old.items out.new.items (field entry.now) }
    ensures fits { OnOk result (FitsField entry.now) }
{
    put_string(out, &entry.name)?;
    put_numbers(out, entry)?;
    Ok(())
}

/// Appends the numbers that follow a column's name.
fn put_numbers(out: &mut Vec<u8>, entry: &Field) -> Result<(), AllocError>
    ensures put { Appends result out.old.items out.new.items (int32 entry.now.table ++ signed16 entry.now.attribute ++ int32 entry.now.type_oid ++ signed16 entry.now.size ++ signed32 entry.now.modifier ++ int16 entry.now.format) }
    ensures fits { OnOk result (FitsNumbers entry.now) }
{
    put_source(out, entry)?;
    put_type(out, entry)?;
    put_form(out, entry)?;
    Ok(())
}

/// Appends a column's table and attribute.
fn put_source(out: &mut Vec<u8>, entry: &Field) -> Result<(), AllocError>
    ensures put { Appends result out.old.items out.new.items (int32 entry.now.table ++ signed16 entry.now.attribute) }
    ensures fits { OnOk result ((entry.now.table < 2 ^ 32) × FitsSigned w16 entry.now.attribute) }
{
    put_u32(out, entry.table)?;
    put_i16(out, entry.attribute)?;
    Ok(())
}

/// Appends a column's type and its size.
fn put_type(out: &mut Vec<u8>, entry: &Field) -> Result<(), AllocError>
    ensures put { Appends result out.old.items out.new.items (int32 entry.now.type_oid ++ signed16 entry.now.size) }
    ensures fits { OnOk result ((entry.now.type_oid < 2 ^ 32) × FitsSigned w16 entry.now.size) }
{
    put_u32(out, entry.type_oid)?;
    put_i16(out, entry.size)?;
    Ok(())
}

/// Appends a column's type modifier and its format.
fn put_form(out: &mut Vec<u8>, entry: &Field) -> Result<(), AllocError>
    ensures put { Appends result out.old.items out.new.items (signed32 entry.now.modifier ++ int16 entry.now.format) }
    ensures fits { OnOk result (FitsSigned w32 entry.now.modifier × (entry.now.format < 2 ^ 16)) }
{
    put_i32(out, entry.modifier)?;
    put_u16(out, entry.format)?;
    Ok(())
}

/// Appends a value of DataRow.
fn put_column(out: &mut Vec<u8>, entry: &Column) -> Result<(), AllocError>
    requires { length (column entry.now) < 2 ^ 32 }
    ensures put { Appends result out.old.items out.new.items (column entry.now) }
    ensures fits { OnOk result (FitsColumn entry.now) }
{
    match entry {
        None => put_u32(out, u32::MAX)?,
        Some(bytes) => {
            put_u32(out, bytes.len() as u32)?;
            put_bytes(out, bytes.as_slice())?;
        }
    }
    Ok(())
}

/// Appends a field of an error or a notice.
fn put_error_field(out: &mut Vec<u8>, entry: &ErrorField) -> Result<(), AllocError>
    requires { 0 < entry.now.code }
    ensures put { Appends result out.old.items out.new.items (error_field entry.now) }
    ensures fits { OnOk result (FitsErrorField entry.now) }
{
    out.push(entry.code)?;
    put_string(out, &entry.text)
}

/// Appends the number of entries that follow.
fn put_count(out: &mut Vec<u8>, count: usize) -> Result<(), AllocError>
    requires { count ≤ LIST_LIMIT }
    ensures { Appends result out.old.items out.new.items (int16 count) }
{
    put_u16(out, count as u16)
}

fn put_fields(out: &mut Vec<u8>, fields: &Fields) -> Result<(), AllocError>
    ensures put { Appends result out.old.items out.new.items (counted field fields.now) }
    ensures fits { OnOk result ((length fields.now ≤ LIST_LIMIT) × AllByRecursion FitsField fields.now) }
{
    let entries = fields.as_slice();
    put_count(out, entries.len())?;
    for entry in entries {
        put_field(out, entry)?;
    }
    Ok(())
}

fn put_columns(out: &mut Vec<u8>, columns: &Columns) -> Result<(), AllocError>
    requires { length (counted column columns.now) < 2 ^ 32 }
    ensures put { Appends result out.old.items out.new.items (counted column columns.now) }
    ensures fits { OnOk result ((length columns.now ≤ LIST_LIMIT) × AllByRecursion FitsColumn columns.now) }
{
    let entries = columns.as_slice();
    put_count(out, entries.len())?;
    for entry in entries {
        put_column(out, entry)?;
    }
    Ok(())
}

fn put_error_fields(out: &mut Vec<u8>, fields: &ErrorFields) -> Result<(), AllocError>
    ensures put { Appends result out.old.items out.new.items (ended error_field fields.now) }
    ensures fits { OnOk result (AllByRecursion FitsErrorField fields.now) }
{
    for entry in fields.as_slice() {
        put_error_field(out, entry)?;
    }
    out.push(0)?;
    Ok(())
}

fn put_formats(out: &mut Vec<u8>, formats: &Formats) -> Result<(), AllocError>
    ensures put { Appends result out.old.items out.new.items (counted int16 formats.now) }
    ensures fits { OnOk result ((length formats.now ≤ LIST_LIMIT) × AllByRecursion (λ f. f < 2 ^ 16) formats.now) }
{
    let entries = formats.as_slice();
    put_count(out, entries.len())?;
    for entry in entries {
        put_u16(out, *entry)?;
    }
    Ok(())
}

/// Appends what a copy's beginning says of it.
fn put_copy(out: &mut Vec<u8>, format: u8, formats: &Formats) -> Result<(), AllocError>
    ensures put { Appends result out.old.items out.new.items (format ∷ counted int16 formats.now) }
    ensures fits { OnOk result ((format < 256) × (length formats.now ≤ LIST_LIMIT) × AllByRecursion (λ f. f < 2 ^ 16) formats.now) }
{
    out.push(format)?;
    put_formats(out, formats)
}

fn status_of(status: TransactionStatus) -> u8
    ensures { result ≡ status_byte status }
{
    match status {
        TransactionStatus::Idle => b'I',
        TransactionStatus::Open => b'T',
        TransactionStatus::Failed => b'E',
    }
}

/// Appends the message's body.
fn put_body(out: &mut Vec<u8>, message: &Back) -> Result<(), AllocError>
    requires { length (back_body message.now) < 2 ^ 32 }
    ensures put { Appends result out.old.items out.new.items (back_body message.now) }
    ensures fits { OnOk result (FitsBack message.now) }
{
    match message {
        Back::AuthenticationOk => put_u32(out, 0),
        Back::ParameterStatus { name, value } => put_strings(out, name, value),
        Back::BackendKeyData { pid, key } => put_pair(out, *pid, *key),
        Back::ReadyForQuery(status) => put_byte(out, status_of(*status)),
        Back::RowDescription(fields) => put_fields(out, fields),
        Back::DataRow(columns) => put_columns(out, columns),
        Back::CommandComplete(tag) => put_string(out, tag),
        Back::ErrorResponse(fields) | Back::NoticeResponse(fields) => put_error_fields(out, fields),
        Back::CopyData(bytes) => put_bytes(out, bytes.as_slice()),
        Back::CopyDone => Ok(()),
        Back::CopyBoth { format, formats } => put_copy(out, *format, formats),
    }
}
