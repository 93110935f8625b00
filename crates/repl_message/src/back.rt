ghost use Rattle.std.specs.Prelude.{◌≡◌, ◌≤◌, ◌↔◌, IsSome, IfSome, IfOk, MatchOption, length};

use bytes::Bytes;
use repl_text::Text;
use std::alloc::{AllocError, Global};
use std::marker::Model;

/// The most entries of a list that a message counts by an Int16, read as unsigned.
pub const LIST_LIMIT: usize = 65_535;

const _: () = prove!(LIST_LIMIT == 65_535);

/// Whether a transaction is open, as ReadyForQuery tells it.
#[derive(Clone, Copy, Debug, PartialEq, Eq)]
pub enum TransactionStatus {
    /// None is open: `I`.
    Idle,
    /// One is open: `T`.
    Open,
    /// One is open and has failed: `E`.
    Failed,
}

/// A column of an answer, as RowDescription describes it.
#[derive(Debug, Drop)]
pub struct Field {
    pub name: Text,
    /// The table's OID, or 0.
    pub table: u32,
    /// The attribute's number in its table, or 0.
    pub attribute: i16,
    /// The OID of the data type.
    pub type_oid: u32,
    /// The data type's size in bytes; negative where it varies.
    pub size: i16,
    /// The type modifier, or -1.
    pub modifier: i32,
    /// 0 for text, 1 for binary.
    pub format: u16,
}

/// The columns of an answer. There are at most 65,535.
#[derive(Debug, Drop)]
pub struct Fields {
    fields: Vec<Field>,
}

impl Model for Fields {
    ghost use Rattle.std.specs.Prelude.{List, length, ◌≤◌};
    ghost use Rattle.repl_message.specs.declared.back.Field.{Field};

    ghost Value = { List Field };

    ghost view = { λ f. f.fields.items };

    ghost invariant = { λ f. length f.fields.items ≤ 65_535 };
}

impl Fields {
    /// These columns, or `None` exactly where there are too many.
    pub fn new(fields: Vec<Field>) -> Option<Fields>
        ensures made { IfSome result (λ made. made ≡ fields.items) }
        ensures taken { IsSome result ↔ (length fields.items ≤ LIST_LIMIT) }
    {
        if fields.len() <= LIST_LIMIT {
            Some(Fields { fields })
        } else {
            None
        }
    }

    /// The columns.
    pub fn as_slice(&self) -> &[Field]
        ensures value { result.now ≡ self.now }
        ensures few { length self.now ≤ LIST_LIMIT }
    {
        &self.fields
    }
}

/// A value in a row of an answer: its text, or `None` for a null.
pub type Column = Option<Bytes>;

/// A row of an answer. There are at most 65,535 values.
#[derive(Debug, Drop)]
pub struct Columns {
    columns: Vec<Column>,
}

impl Model for Columns {
    ghost use Rattle.std.specs.Prelude.{ℕ, List, Option, length, ◌≤◌};

    ghost Value = { List (Option (List ℕ)) };

    ghost view = { λ c. c.columns.items };

    ghost invariant = { λ c. length c.columns.items ≤ 65_535 };
}

impl Columns {
    /// These values, or `None` exactly where there are too many.
    pub fn new(columns: Vec<Column>) -> Option<Columns>
        ensures made { IfSome result (λ made. made ≡ columns.items) }
        ensures taken { IsSome result ↔ (length columns.items ≤ LIST_LIMIT) }
    {
        if columns.len() <= LIST_LIMIT {
            Some(Columns { columns })
        } else {
            None
        }
    }

    /// The values.
    pub fn as_slice(&self) -> &[Column]
        ensures value { result.now ≡ self.now }
        ensures few { length self.now ≤ LIST_LIMIT }
    {
        &self.columns
    }
}

/// A field of an error or a notice (manual, "Error and Notice Message Fields"): its code, which is not 0,
/// and its text.
#[derive(Debug, Drop)]
pub struct ErrorField {
    pub code: u8,
    pub text: Text,
}

/// The fields of an error or a notice, in order. None of the codes is 0.
#[derive(Debug, Drop)]
pub struct ErrorFields {
    fields: Vec<ErrorField>,
}

impl Model for ErrorFields {
    ghost use Rattle.std.specs.Prelude.{List};
    ghost use Rattle.repl_message.specs.declared.back.ErrorField.{ErrorField};

    ghost Value = { List ErrorField };

    ghost use Rattle.repl_message.specs.Lists.{AreCoded};

    ghost view = { λ f. f.fields.items };

    ghost invariant = { λ f. AreCoded f.fields.items };
}

impl ErrorFields {
    ghost use Rattle.repl_message.specs.Lists.{AreCoded, told, HasNoField, IsFirst};

    /// These fields, or `None` exactly where a code is 0.
    pub fn new(fields: Vec<ErrorField>) -> Option<ErrorFields>
        ensures made { IfSome result (λ made. made ≡ fields.items) }
        ensures taken { IsSome result ↔ AreCoded fields.items }
    {
        if fields.iter().all(|field| field.code != 0) {
            Some(ErrorFields { fields })
        } else {
            None
        }
    }

    /// The fields that each error and each notice has: its severity twice, `S` and `V`, its SQLSTATE code, `C`, and
    /// its text, `M`. Takes memory for the list and for the second severity.
    pub fn told(
        alloc: Global,
        severity: Text,
        code: Text,
        text: Text,
    ) -> Result<ErrorFields, AllocError>
        ensures { IfOk result (λ fields. fields ≡ told severity code text) }
    {
        let plain = Text::copied(alloc, severity.as_slice())?;
        let mut fields = Vec::new(alloc);
        fields.push(coded(b'S', severity))?;
        fields.push(coded(b'V', plain))?;
        fields.push(coded(b'C', code))?;
        fields.push(coded(b'M', text))?;
        match ErrorFields::new(fields) {
            Some(fields) => Ok(fields),
            None => unreachable!(),
        }
    }

    /// The text of the first field with this code, or `None` exactly where no field has it.
    pub fn text_of(&self, code: u8) -> Option<&Text>
        ensures { MatchOption result (HasNoField code self.now) (λ text. IsFirst code self.now text.now) }
    {
        match self.fields.iter().find(|field| field.code == code) {
            Some(field) => Some(&field.text),
            None => None,
        }
    }

    /// The fields.
    pub fn as_slice(&self) -> &[ErrorField]
        ensures value { result.now ≡ self.now }
        ensures coded { AreCoded self.now }
    {
        &self.fields
    }
}

fn coded(code: u8, text: Text) -> ErrorField
    ensures { result ≡ record { code = code; text = text } }
{
    ErrorField { code, text }
}

/// The format codes of a copy's columns. There are at most 65,535.
#[derive(Debug, Drop)]
pub struct Formats {
    formats: Vec<u16>,
}

impl Model for Formats {
    ghost use Rattle.std.specs.Prelude.{ℕ, List, length, ◌≤◌};

    ghost Value = { List ℕ };

    ghost view = { λ f. f.formats.items };

    ghost invariant = { λ f. length f.formats.items ≤ 65_535 };
}

impl Formats {
    /// These codes, or `None` exactly where there are too many.
    pub fn new(formats: Vec<u16>) -> Option<Formats>
        ensures made { IfSome result (λ made. made ≡ formats.items) }
        ensures taken { IsSome result ↔ (length formats.items ≤ LIST_LIMIT) }
    {
        if formats.len() <= LIST_LIMIT {
            Some(Formats { formats })
        } else {
            None
        }
    }

    /// The codes.
    pub fn as_slice(&self) -> &[u16]
        ensures value { result.now ≡ self.now }
        ensures few { length self.now ≤ LIST_LIMIT }
    {
        &self.formats
    }
}

/// A message of the server (manual, "Message Formats").
#[derive(Debug, Drop)]
pub enum Back {
    /// The client is let in: `R` with code 0.
    AuthenticationOk,
    /// A setting and its value: `S`.
    ParameterStatus { name: Text, value: Text },
    /// The session's number, and the key to cancel it: `K`.
    BackendKeyData { pid: u32, key: u32 },
    /// The server waits for the next query: `Z`.
    ReadyForQuery(TransactionStatus),
    /// The columns of the answer that follows: `T`.
    RowDescription(Fields),
    /// A row of the answer: `D`.
    DataRow(Columns),
    /// The command is done, with its tag: `C`.
    CommandComplete(Text),
    /// An error: `E`.
    ErrorResponse(ErrorFields),
    /// A notice: `N`.
    NoticeResponse(ErrorFields),
    /// A piece of a copy's data: `d`.
    CopyData(Bytes),
    /// The end of the server's copy: `c`.
    CopyDone,
    /// A copy in both directions begins: `W`.
    CopyBoth { format: u8, formats: Formats },
}
