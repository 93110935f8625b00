ghost use Rattle.std.specs.Prelude.{◌≡◌, length, IsSome, IfSome};
ghost use Rattle.repl_wire.specs.Judging.{Gives, byte_at, int16_at, int32_at, entries_at, field_at, column_at, coded_at, authentication_of, setting_of, key_of, status_of, description_of, data_row_of, tag_of, error_of, notice_of, copy_done_of, copy_both_of, back_row};

use crate::fields::{FieldFault, read_bytes, read_nothing, read_text, string_of};
use bytes::Bytes;
use repl_message::{
    Back, Column, Columns, ErrorField, ErrorFields, Field, Fields, Formats, TransactionStatus,
};
use std::alloc::Global;

/// The length of a null in a row, -1 read as unsigned.
const NULL: u32 = 0xffff_ffff;

/// The greatest length of a value in a row: a length is a signed number of 32 bits.
const VALUE_LIMIT: u32 = 0x7fff_ffff;

const _: () = prove!(VALUE_LIMIT == 2_147_483_647);

/// The byte at the front of a body, and the bytes after it.
fn byte_of(bytes: &[u8]) -> Result<(u8, &[u8]), FieldFault>
    ensures { Gives (λ x. (x.0, x.1.now)) result (byte_at bytes.now) }
{
    match bytes {
        [byte, rest @ ..] => Ok((*byte, rest)),
        [] => Err(FieldFault::Left(0)),
    }
}

/// The number in the first two bytes of a body, and the bytes after it.
#[tactic(auto, unfolding(crate::specs::Judging::int16_at))]
fn int16_of(bytes: &[u8]) -> Result<(u16, &[u8]), FieldFault>
    ensures { Gives (λ x. (x.0, x.1.now)) result (int16_at bytes.now) }
{
    match bytes {
        [a, b, rest @ ..] => Ok((u16::from_be_bytes([*a, *b]), rest)),
        _ => Err(FieldFault::Left(bytes.len())),
    }
}

/// The number in the first four bytes of a body, and the bytes after it.
#[tactic(auto, unfolding(crate::specs::Judging::int32_at))]
fn int32_of(bytes: &[u8]) -> Result<(u32, &[u8]), FieldFault>
    ensures { Gives (λ x. (x.0, x.1.now)) result (int32_at bytes.now) }
{
    match bytes {
        [a, b, c, d, rest @ ..] => Ok((u32::from_be_bytes([*a, *b, *c, *d]), rest)),
        _ => Err(FieldFault::Left(bytes.len())),
    }
}

/// A column of RowDescription, and the bytes after it.
#[tactic(auto, unfolding(crate::specs::Judging::field_at))]
fn field_of(alloc: Global, bytes: &[u8]) -> Result<(Field, &[u8]), FieldFault>
    ensures { Gives (λ x. (x.0, x.1.now)) result (field_at bytes.now) }
{
    let (name, rest) = string_of(alloc, bytes)?;
    let (table, rest) = int32_of(rest)?;
    let (attribute, rest) = int16_of(rest)?;
    let (type_oid, rest) = int32_of(rest)?;
    let (size, rest) = int16_of(rest)?;
    let (modifier, rest) = int32_of(rest)?;
    let (format, rest) = int16_of(rest)?;
    let field = Field {
        name,
        table,
        attribute: attribute.cast_signed(),
        type_oid,
        size: size.cast_signed(),
        modifier: modifier.cast_signed(),
        format,
    };
    Ok((field, rest))
}

/// A value of DataRow, and the bytes after it. A length that no value has is no field of a body; with another, after
/// which too few bytes stand, a body goes on, and not with what stands after it.
#[tactic(auto, unfolding(crate::specs::Judging::column_at))]
fn column_of(alloc: Global, bytes: &[u8]) -> Result<(Column, &[u8]), FieldFault>
    ensures { Gives (λ x. (x.0, x.1.now)) result (column_at bytes.now) }
{
    let (said, rest) = int32_of(bytes)?;
    if said == NULL {
        return Ok((None, rest));
    }
    if said > VALUE_LIMIT {
        return Err(FieldFault::Left(bytes.len()));
    }
    let size = said as usize;
    if rest.len() < size {
        return Err(FieldFault::Left(rest.len()));
    }
    let (value, rest) = rest.split_at(size);
    Ok((Some(Bytes::copy_from_slice(alloc, value)?), rest))
}

/// So many columns of RowDescription, and the bytes after them.
fn fields_of(alloc: Global, count: u16, bytes: &[u8]) -> Result<(Fields, &[u8]), FieldFault>
    ensures { Gives (λ x. (x.0, x.1.now)) result (entries_at field_at count bytes.now) }
{
    let mut fields = Vec::new(alloc);
    let mut rest = bytes;
    for _ in 0..count {
        let (field, after) = field_of(alloc, rest)?;
        fields.push(field)?;
        rest = after;
    }
    match Fields::new(fields) {
        Some(fields) => Ok((fields, rest)),
        None => unreachable!(),
    }
}

/// So many values of DataRow, and the bytes after them.
fn columns_of(alloc: Global, count: u16, bytes: &[u8]) -> Result<(Columns, &[u8]), FieldFault>
    ensures { Gives (λ x. (x.0, x.1.now)) result (entries_at column_at count bytes.now) }
{
    let mut columns = Vec::new(alloc);
    let mut rest = bytes;
    for _ in 0..count {
        let (column, after) = column_of(alloc, rest)?;
        columns.push(column)?;
        rest = after;
    }
    match Columns::new(columns) {
        Some(columns) => Ok((columns, rest)),
        None => unreachable!(),
    }
}

/// So many format codes, and the bytes after them.
fn formats_of(alloc: Global, count: u16, bytes: &[u8]) -> Result<(Formats, &[u8]), FieldFault>
    ensures { Gives (λ x. (x.0, x.1.now)) result (entries_at int16_at count bytes.now) }
{
    let mut formats = Vec::new(alloc);
    let mut rest = bytes;
    for _ in 0..count {
        let (format, after) = int16_of(rest)?;
        formats.push(format)?;
        rest = after;
    }
    match Formats::new(formats) {
        Some(formats) => Ok((formats, rest)),
        None => unreachable!(),
    }
}

/// Codes that are not 0, each with its text, and the bytes after the zero byte that ends them.
#[tactic(auto, unfolding(crate::specs::Judging::coded_at))]
fn coded_of(alloc: Global, body: &[u8]) -> Result<(Vec<ErrorField>, &[u8]), FieldFault>
    ensures { Gives (λ x. (x.0.items, x.1.now)) result (coded_at (length body.now) body.now) }
{
    let mut fields = Vec::new(alloc);
    let mut rest = body;
    for _ in 0..body.len() {
        let Some((code, past)) = rest.split_first() else {
            return Err(FieldFault::Left(0));
        };
        if *code == 0 {
            return Ok((fields, past));
        }
        let (text, after) = string_of(alloc, past)?;
        fields.push(ErrorField { code: *code, text })?;
        rest = after;
    }
    Err(FieldFault::Left(rest.len()))
}

/// The fields of an error or a notice, and the bytes after the zero byte that ends them.
fn error_fields_of(alloc: Global, body: &[u8]) -> Result<(ErrorFields, &[u8]), FieldFault>
    ensures { Gives (λ x. (x.0, x.1.now)) result (coded_at (length body.now) body.now) }
{
    let (fields, rest) = coded_of(alloc, body)?;
    match ErrorFields::new(fields) {
        Some(fields) => Ok((fields, rest)),
        None => unreachable!(),
    }
}

/// A body that lets the client in: the code 0, and no other.
#[tactic(auto, unfolding(crate::specs::Judging::authentication_of, crate::specs::Judging::nothing_of))]
fn read_authentication(body: &[u8]) -> Result<Back, FieldFault>
    ensures { Gives (λ x. x) result (authentication_of body.now) }
{
    let (code, rest) = int32_of(body)?;
    if code != 0 {
        return Err(FieldFault::Left(body.len()));
    }
    read_nothing(rest)?;
    Ok(Back::AuthenticationOk)
}

/// A body of a setting's name and its value.
#[tactic(auto, unfolding(crate::specs::Judging::setting_of, crate::specs::Judging::nothing_of))]
fn read_setting(alloc: Global, body: &[u8]) -> Result<Back, FieldFault>
    ensures { Gives (λ x. x) result (setting_of body.now) }
{
    let (name, rest) = string_of(alloc, body)?;
    let (value, rest) = string_of(alloc, rest)?;
    read_nothing(rest)?;
    Ok(Back::ParameterStatus { name, value })
}

/// A body of a session's number and the key to cancel it.
#[tactic(auto, unfolding(crate::specs::Judging::key_of, crate::specs::Judging::nothing_of))]
fn read_key(body: &[u8]) -> Result<Back, FieldFault>
    ensures { Gives (λ x. x) result (key_of body.now) }
{
    let (pid, rest) = int32_of(body)?;
    let (key, rest) = int32_of(rest)?;
    read_nothing(rest)?;
    Ok(Back::BackendKeyData { pid, key })
}

/// A body of the one byte that says whether a transaction is open.
#[tactic(auto, unfolding(crate::specs::Judging::status_of, crate::specs::Judging::nothing_of))]
fn read_status(body: &[u8]) -> Result<Back, FieldFault>
    ensures { Gives (λ x. x) result (status_of body.now) }
{
    let (byte, rest) = byte_of(body)?;
    let status = match byte {
        b'I' => TransactionStatus::Idle,
        b'T' => TransactionStatus::Open,
        b'E' => TransactionStatus::Failed,
        _ => return Err(FieldFault::Left(body.len())),
    };
    read_nothing(rest)?;
    Ok(Back::ReadyForQuery(status))
}

/// A body of columns that their number counts.
#[tactic(auto, unfolding(crate::specs::Judging::description_of, crate::specs::Judging::nothing_of))]
fn read_description(alloc: Global, body: &[u8]) -> Result<Back, FieldFault>
    ensures { Gives (λ x. x) result (description_of body.now) }
{
    let (count, rest) = int16_of(body)?;
    let (fields, rest) = fields_of(alloc, count, rest)?;
    read_nothing(rest)?;
    Ok(Back::RowDescription(fields))
}

/// A body of values that their number counts.
#[tactic(auto, unfolding(crate::specs::Judging::data_row_of, crate::specs::Judging::nothing_of))]
fn read_data_row(alloc: Global, body: &[u8]) -> Result<Back, FieldFault>
    ensures { Gives (λ x. x) result (data_row_of body.now) }
{
    let (count, rest) = int16_of(body)?;
    let (columns, rest) = columns_of(alloc, count, rest)?;
    read_nothing(rest)?;
    Ok(Back::DataRow(columns))
}

/// A body of a command's tag.
#[tactic(auto, unfolding(crate::specs::Judging::tag_of))]
fn read_tag(alloc: Global, body: &[u8]) -> Result<Back, FieldFault>
    ensures { Gives (λ x. x) result (tag_of body.now) }
{
    Ok(Back::CommandComplete(read_text(alloc, body)?))
}

/// A body of an error's fields.
#[tactic(auto, unfolding(crate::specs::Judging::error_of, crate::specs::Judging::nothing_of))]
fn read_error(alloc: Global, body: &[u8]) -> Result<Back, FieldFault>
    ensures { Gives (λ x. x) result (error_of body.now) }
{
    let (fields, rest) = error_fields_of(alloc, body)?;
    read_nothing(rest)?;
    Ok(Back::ErrorResponse(fields))
}

/// A body of a notice's fields.
#[tactic(auto, unfolding(crate::specs::Judging::notice_of, crate::specs::Judging::nothing_of))]
fn read_notice(alloc: Global, body: &[u8]) -> Result<Back, FieldFault>
    ensures { Gives (λ x. x) result (notice_of body.now) }
{
    let (fields, rest) = error_fields_of(alloc, body)?;
    read_nothing(rest)?;
    Ok(Back::NoticeResponse(fields))
}

#[tactic(auto, unfolding(crate::specs::Judging::copy_done_of))]
fn read_copy_done(body: &[u8]) -> Result<Back, FieldFault>
    ensures { Gives (λ x. x) result (copy_done_of body.now) }
{
    read_nothing(body)?;
    Ok(Back::CopyDone)
}

/// A body of a copy's format and those of its columns, which their number counts.
#[tactic(auto, unfolding(crate::specs::Judging::copy_both_of, crate::specs::Judging::nothing_of))]
fn read_copy_both(alloc: Global, body: &[u8]) -> Result<Back, FieldFault>
    ensures { Gives (λ x. x) result (copy_both_of body.now) }
{
    let (format, rest) = byte_of(body)?;
    let (count, rest) = int16_of(rest)?;
    let (formats, rest) = formats_of(alloc, count, rest)?;
    read_nothing(rest)?;
    Ok(Back::CopyBoth { format, formats })
}

/// The body of a message of the server with this type byte.
#[tactic(auto, unfolding(crate::specs::Judging::bytes_of))]
pub(crate) fn read_back(alloc: Global, kind: u8, body: &[u8]) -> Result<Back, FieldFault>
    requires { IsSome (back_row kind) }
    ensures { IfSome (back_row kind) (λ r. Gives (λ x. x) result (r.read body.now)) }
{
    match kind {
        b'R' => read_authentication(body),
        b'S' => read_setting(alloc, body),
        b'K' => read_key(body),
        b'Z' => read_status(body),
        b'T' => read_description(alloc, body),
        b'D' => read_data_row(alloc, body),
        b'C' => read_tag(alloc, body),
        b'E' => read_error(alloc, body),
        b'N' => read_notice(alloc, body),
        b'd' => Ok(Back::CopyData(read_bytes(alloc, body)?)),
        b'c' => read_copy_done(body),
        b'W' => read_copy_both(alloc, body),
        _ => unreachable!(),
    }
}
