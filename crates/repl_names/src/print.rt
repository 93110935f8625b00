ghost use Rattle.std.specs.Prelude.{◌≡◌, ◌++◌, IfOk};
ghost use Rattle.repl_names.specs.StandbyList.{IsListing, list_spelling, name_spelling, names_spelling, method_spelling};

use crate::list::{Method, StandbyList};
use repl_text::Text;
use repl_token::put_quoted;
use std::alloc::{AllocError, Global};

/// The one spelling of the list, which is read back as it: `FIRST n (..)` or `ANY n (..)`, with every name but
/// `*` in double quotes, and nothing for the list without names. It has at most 65,536 bytes. Takes memory.
pub fn print_names(alloc: Global, list: &StandbyList) -> Result<Vec<u8>, AllocError>
    ensures exact { IfOk result (λ text. text.items ≡ list_spelling list.now) }
    // Its names are texts, its number is in range, and the spelling is short enough.
    ensures listing { IsListing list.now }
{
    let names = list.names().as_slice();
    if names.is_empty() {
        return Ok(Vec::new(alloc));
    }
    let word = method_word(list.method());
    let number = list.number();
    let mut out = format!(in alloc; "{word} {number} (")?.into_bytes();
    put_names(&mut out, names)?;
    out.push(b')')?;
    Ok(out)
}

/// The keyword of a method.
fn method_word(method: Method) -> &'static str
    ensures { result.now ≡ method_spelling method }
{
    match method {
        Method::First => "FIRST",
        Method::Any => "ANY",
    }
}

/// Appends the names, with `, ` between them.
fn put_names(out: &mut Vec<u8>, names: &[Text]) -> Result<(), AllocError>
    ensures { IfOk result (λ _. out.new.items ≡ out.old.items ++ names_spelling names.now) }
{
    for (i, name) in names.iter().enumerate() {
        if i > 0 {
            out.extend_from_slice(b", ")?;
        }
        put_name(out, name.as_slice())?;
    }
    Ok(())
}

/// Appends a name in quotes, and `*` bare.
fn put_name(out: &mut Vec<u8>, name: &[u8]) -> Result<(), AllocError>
    ensures { IfOk result (λ _. out.new.items ≡ out.old.items ++ name_spelling name.now) }
{
    if name == b"*".as_slice() {
        out.push(b'*')?;
        return Ok(());
    }
    put_quoted(out, b'"', name)
}
