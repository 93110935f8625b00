//! Messages of a server in words.
use crate::messages::{bytes_of, text_of};
use repl_message::{
    Back, Column, Columns, ErrorField, ErrorFields, Field, Fields, Formats, TransactionStatus,
};
use rows_table::{Answer, Call, Miss, joined, short, text};
use std::alloc::{AllocError, Global};

/// The message of these words.
pub fn back(alloc: Global, call: &Call) -> Result<Back, Miss> {
    if let Some([]) = call.words("authentication_ok") {
        return Ok(Back::AuthenticationOk);
    }
    if let Some([name, value]) = call.words("parameter_status") {
        return parameter_status(name, value);
    }
    if let Some([pid, key]) = call.words("backend_key_data") {
        return backend_key_data(pid, key);
    }
    if let Some([status]) = call.words("ready_for_query") {
        return ready_for_query(status);
    }
    if let Some(words) = call.words("row_description") {
        return row_description(alloc, words);
    }
    if let Some(words) = call.words("data_row") {
        return data_row(alloc, words);
    }
    back_more(alloc, call)
}

fn back_more(alloc: Global, call: &Call) -> Result<Back, Miss> {
    if let Some([tag]) = call.words("command_complete") {
        return command_complete(tag);
    }
    if let Some(words) = call.words("error_response") {
        return error_response(alloc, words);
    }
    if let Some(words) = call.words("notice_response") {
        return notice_response(alloc, words);
    }
    if let Some([bytes]) = call.words("copy_data") {
        return copy_data(bytes);
    }
    if let Some([]) = call.words("copy_done") {
        return Ok(Back::CopyDone);
    }
    if let Some([format, words @ ..]) = call.words("copy_both") {
        return copy_both(alloc, format, words);
    }
    Err(Miss::Words)
}

fn parameter_status(name: &Vec<u8>, value: &Vec<u8>) -> Result<Back, Miss> {
    Ok(Back::ParameterStatus {
        name: text_of(name)?,
        value: text_of(value)?,
    })
}

fn backend_key_data(pid: &[u8], key: &[u8]) -> Result<Back, Miss> {
    Ok(Back::BackendKeyData {
        pid: short(pid)?,
        key: short(key)?,
    })
}

fn ready_for_query(status: &[u8]) -> Result<Back, Miss> {
    Ok(Back::ReadyForQuery(transaction(text(status)?)?))
}

fn row_description(alloc: Global, words: &[Vec<u8>]) -> Result<Back, Miss> {
    Ok(Back::RowDescription(fields(alloc, words)?))
}

fn data_row(alloc: Global, words: &[Vec<u8>]) -> Result<Back, Miss> {
    Ok(Back::DataRow(columns(alloc, words)?))
}

fn command_complete(tag: &Vec<u8>) -> Result<Back, Miss> {
    Ok(Back::CommandComplete(text_of(tag)?))
}

fn error_response(alloc: Global, words: &[Vec<u8>]) -> Result<Back, Miss> {
    Ok(Back::ErrorResponse(error_fields(alloc, words)?))
}

fn notice_response(alloc: Global, words: &[Vec<u8>]) -> Result<Back, Miss> {
    Ok(Back::NoticeResponse(error_fields(alloc, words)?))
}

fn copy_data(bytes: &Vec<u8>) -> Result<Back, Miss> {
    Ok(Back::CopyData(bytes_of(bytes)?))
}

fn copy_both(alloc: Global, format: &[u8], words: &[Vec<u8>]) -> Result<Back, Miss> {
    Ok(Back::CopyBoth {
        format: u8::try_from(short(format)?).ok().ok_or(Miss::Words)?,
        formats: formats(alloc, words)?,
    })
}

fn transaction(word: &str) -> Result<TransactionStatus, Miss> {
    match word {
        "idle" => Ok(TransactionStatus::Idle),
        "open" => Ok(TransactionStatus::Open),
        "failed" => Ok(TransactionStatus::Failed),
        _ => Err(Miss::Words),
    }
}

/// Columns: the name, the table, the attribute, the type, its size, the modifier and the format of each.
fn fields(alloc: Global, words: &[Vec<u8>]) -> Result<Fields, Miss> {
    let mut fields = Vec::new(alloc);
    for field in words.chunks(7) {
        fields.push(field_of(field)?)?;
    }
    Fields::new(fields).ok_or(Miss::Words)
}

fn field_of(words: &[Vec<u8>]) -> Result<Field, Miss> {
    let [name, table, attribute, type_oid, size, modifier, format] = words else {
        return Err(Miss::Words);
    };
    Ok(Field {
        table: short(table)?,
        attribute: signed(attribute)?,
        type_oid: short(type_oid)?,
        size: signed(size)?,
        modifier: text(modifier)?.parse::<i32>().ok().ok_or(Miss::Words)?,
        format: format_of(format)?,
        name: text_of(name)?,
    })
}

fn signed(word: &[u8]) -> Result<i16, Miss> {
    text(word)?.parse::<i16>().ok().ok_or(Miss::Words)
}

fn format_of(word: &[u8]) -> Result<u16, Miss> {
    u16::try_from(short(word)?).ok().ok_or(Miss::Words)
}

/// The values of a row, of which `null` is none.
fn columns(alloc: Global, words: &[Vec<u8>]) -> Result<Columns, Miss> {
    let mut columns = Vec::new(alloc);
    for word in words {
        columns.push(if word.as_slice() == b"null".as_slice() {
            None
        } else {
            Some(bytes_of(word)?)
        })?;
    }
    Columns::new(columns).ok_or(Miss::Words)
}

/// The fields of an error: the code and the text of each.
pub fn error_fields(alloc: Global, words: &[Vec<u8>]) -> Result<ErrorFields, Miss> {
    let mut fields = Vec::new(alloc);
    for field in words.chunks(2) {
        let [code, text] = field else {
            return Err(Miss::Words);
        };
        let [code] = code.as_slice() else {
            return Err(Miss::Words);
        };
        fields.push(ErrorField {
            code: *code,
            text: text_of(text)?,
        })?;
    }
    ErrorFields::new(fields).ok_or(Miss::Words)
}

fn formats(alloc: Global, words: &[Vec<u8>]) -> Result<Formats, Miss> {
    let mut formats = Vec::new(alloc);
    for word in words {
        formats.push(format_of(word)?)?;
    }
    Formats::new(formats).ok_or(Miss::Words)
}

/// The words of a message of a server.
pub fn back_words(alloc: Global, message: &Back) -> Answer {
    match message {
        Back::AuthenticationOk => Ok(b"authentication_ok".to_vec(alloc)?),
        Back::ParameterStatus { name, value } => joined(
            alloc,
            &[b"parameter_status", name.as_slice(), value.as_slice()],
        ),
        Back::BackendKeyData { pid, key } => {
            Ok(format!(in alloc; "backend_key_data {pid} {key}")?.into_bytes())
        }
        Back::ReadyForQuery(status) => {
            joined(
                alloc,
                &[b"ready_for_query", transaction_word(*status).as_bytes()],
            )
        }
        Back::RowDescription(fields) => Ok(fields_words(alloc, fields)?),
        Back::DataRow(columns) => Ok(columns_words(alloc, columns)?),
        Back::CommandComplete(tag) => joined(alloc, &[b"command_complete", tag.as_slice()]),
        Back::ErrorResponse(fields) => Ok(error_words(b"error_response".to_vec(alloc)?, fields)?),
        Back::NoticeResponse(fields) => Ok(error_words(b"notice_response".to_vec(alloc)?, fields)?),
        Back::CopyData(bytes) => joined(alloc, &[b"copy_data", bytes.as_slice()]),
        Back::CopyDone => Ok(b"copy_done".to_vec(alloc)?),
        Back::CopyBoth { format, formats } => Ok(formats_words(alloc, *format, formats)?),
    }
}

fn transaction_word(status: TransactionStatus) -> &'static str {
    match status {
        TransactionStatus::Idle => "idle",
        TransactionStatus::Open => "open",
        TransactionStatus::Failed => "failed",
    }
}

fn fields_words(alloc: Global, fields: &Fields) -> Result<Vec<u8>, AllocError> {
    let mut out = b"row_description".to_vec(alloc)?;
    for field in fields.as_slice() {
        out.push(b' ')?;
        out.extend_from_slice(field.name.as_slice())?;
        let (table, attribute, type_oid) = (field.table, field.attribute, field.type_oid);
        let source = format!(in alloc; " {table} {attribute} {type_oid}")?;
        out.extend_from_slice(source.as_bytes())?;
        let (size, modifier, format) = (field.size, field.modifier, field.format);
        let form = format!(in alloc; " {size} {modifier} {format}")?;
        out.extend_from_slice(form.as_bytes())?;
    }
    Ok(out)
}

fn columns_words(alloc: Global, columns: &Columns) -> Result<Vec<u8>, AllocError> {
    let mut out = b"data_row".to_vec(alloc)?;
    for column in columns.as_slice() {
        out.push(b' ')?;
        match column {
            None => out.extend_from_slice(b"null")?,
            Some(bytes) => out.extend_from_slice(bytes.as_slice())?,
        }
    }
    Ok(out)
}

fn error_words(mut out: Vec<u8>, fields: &ErrorFields) -> Result<Vec<u8>, AllocError> {
    for field in fields.as_slice() {
        out.push(b' ')?;
        out.push(field.code)?;
        out.push(b' ')?;
        out.extend_from_slice(field.text.as_slice())?;
    }
    Ok(out)
}

fn formats_words(alloc: Global, format: u8, formats: &Formats) -> Result<Vec<u8>, AllocError> {
    let mut out = format!(in alloc; "copy_both {format}")?.into_bytes();
    for format in formats.as_slice() {
        out.extend_from_slice(format!(in alloc; " {format}")?.as_bytes())?;
    }
    Ok(out)
}
