//! Writes into bytes.
ghost use Rattle.std.specs.Prelude.{◌≡◌, ◌+◌, ◌^◌, ◌<◌, ◌≤◌, ◌++◌, take, drop, OnOk, OnErr, length};
ghost use Rattle.repl_disk.specs.Folder.{overwritten};

use std::alloc::AllocError;

/// Writes the bytes from `at` on, over as many that are there.
pub(crate) fn write_over(content: &mut Vec<u8>, at: usize, bytes: &[u8])
    requires { at + length bytes.now ≤ length content.old.items }
    ensures { content.new.items ≡ take at content.old.items ++ bytes.now ++ drop (at + length bytes.now) content.old.items }
{
    content[at..at + bytes.len()].copy_from_slice(bytes);
}

/// Writes the bytes from `at` on, past the end too. A gap before `at` is zeros.
pub(crate) fn overwrite(content: &mut Vec<u8>, at: usize, bytes: &[u8]) -> Result<(), AllocError>
    requires { at + length bytes.now < 2 ^ 64 }
    ensures ok { OnOk result (content.new.items ≡ overwritten content.old.items at bytes.now) }
    ensures err { OnErr result (content.new.items ≡ content.old.items) }
{
    let end = at + bytes.len();
    if content.len() < end {
        content.resize(end, 0)?;
    }
    write_over(content, at, bytes);
    Ok(())
}
