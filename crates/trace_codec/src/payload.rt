//! Bytes as a trace writes them.

ghost use Rattle.std.specs.Prelude.{◌≡◌, ◌≤◌, ◌/◌, length, IfSome, IfOk};
ghost use Rattle.trace_codec.specs.Hex.{byte_of, bytes_of_digits, payload_of};

use crate::line::MAX_LENGTH;
use blk_base::Bytes;
use std::alloc::{AllocError, Global};

/// The bytes that a word writes in hexadecimal digits, where a request may write so many.
pub(crate) fn read_payload(alloc: Global, word: &[u8]) -> Result<Option<Bytes>, AllocError>
    ensures value { IfOk result (λ found. found ≡ payload_of word.now) }
    ensures small { IfOk result (λ found. IfSome found (λ bytes. length bytes ≤ 2097152)) }
{
    let count = word.len() / 2;
    if count == 0 || count as u64 > MAX_LENGTH {
        return Ok(None);
    }
    read_bytes(alloc, word)
}

/// The bytes of pairs of hexadecimal digits, where no digit is left over.
fn read_bytes(alloc: Global, digits: &[u8]) -> Result<Option<Bytes>, AllocError>
    ensures value { IfOk result (λ found. found ≡ bytes_of_digits digits.now) }
    ensures half { IfOk result
        (λ found. IfSome found (λ bytes. length bytes ≡ length digits.now / 2)) }
{
    let count = digits.len() / 2;
    let mut bytes = Vec::with_capacity(alloc, count)?;
    for k in 0..count {
        let Some(byte) = read_byte(digits[2 * k], digits[2 * k + 1]) else {
            return Ok(None);
        };
        bytes.push(byte)?;
    }
    if digits.len() % 2 == 0 {
        Ok(Some(Bytes::from_vec(bytes)))
    } else {
        Ok(None)
    }
}

/// The byte that two hexadecimal digits write.
fn read_byte(high: u8, low: u8) -> Option<u8>
    ensures { result ≡ byte_of high low }
{
    let high = char::from(high).to_digit(16)?;
    let low = char::from(low).to_digit(16)?;
    Some((high * 16 + low) as u8)
}
