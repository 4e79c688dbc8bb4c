//! Names: which texts are some, and those that nodes get by themselves.
ghost use Rattle.std.specs.Prelude.{◌≡◌, ◌==◌, ◌++◌, IfOk, codes};
ghost use Rattle.std.specs.List.{list_all, list_any};
ghost use Rattle.qmp_asks.specs.Naming.{begins_with_letter, is_file_name, inline_name, is_name, is_name_byte};
ghost use Rattle.qmp_asks.specs.Seen.{seen_text};

use crate::name::Name;
use blk_base::NoMemory;
use std::alloc::Global;

fn is_name_byte(byte: u8) -> bool
    ensures { result ≡ is_name_byte byte }
{
    byte.is_ascii_alphanumeric() || byte == b'-' || byte == b'.' || byte == b'_'
}

fn begins_with_letter(text: &[u8]) -> bool
    ensures { result ≡ begins_with_letter text.now }
{
    match text {
        [first, ..] => first.is_ascii_alphabetic(),
        [] => false,
    }
}

fn are_name_bytes(text: &[u8]) -> bool
    ensures { result ≡ list_all is_name_byte text.now }
{
    text.iter().all(|byte| is_name_byte(*byte))
}

fn has_zero(text: &[u8]) -> bool
    ensures { result ≡ list_any (λ c. c == 0) text.now }
{
    text.iter().any(|byte| *byte == 0)
}

/// Whether a text is a name of a node, device, job or bitmap: 1 to 31 bytes, of which the first is a letter.
pub fn is_name(text: &str) -> bool
    ensures { result ≡ is_name text.now }
{
    let bytes = text.as_bytes();
    begins_with_letter(bytes) && bytes.len() <= 31 && are_name_bytes(bytes)
}

/// Whether a text is a name of a file: 1 to 1,023 bytes and no zero byte.
pub fn is_file_name(text: &str) -> bool
    ensures { result ≡ is_file_name text.now }
{
    let bytes = text.as_bytes();
    !bytes.is_empty() && bytes.len() <= 1023 && !has_zero(bytes)
}

fn hashed(alloc: Global, node: &str) -> Result<Name, NoMemory>
    ensures { IfOk result (λ name. name ≡ codes "#" ++ node.now) }
{
    let mut text = String::from_str(alloc, "#")?;
    text.push_str(node)?;
    Ok(Name::from_string(text))
}

/// The name of a file node that is made with the node over it.
pub fn inline_name(alloc: Global, node: &str, own: Option<&str>) -> Result<Name, NoMemory>
    ensures { IfOk result (λ name. name ≡ inline_name node.now (seen_text own.entry)) }
{
    match own {
        Some(own) => Name::copied(alloc, own),
        None => hashed(alloc, node),
    }
}
