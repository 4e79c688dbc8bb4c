//! Numbers as a trace writes them.

ghost use Rattle.std.specs.Prelude.{◌≡◌, ◌+◌, ◌*◌, ◌^◌, ◌<◌, ◌≤◌, IfSome};
ghost use Rattle.std.specs.Option.{SomeIff};
ghost use Rattle.trace_codec.specs.Number.{numeral, unit_of, number_of, below};

/// The number that a word writes, where it is one below the limit.
pub fn read_number(word: &[u8], limit: u64) -> Option<u64>
    requires { limit ≤ 2 ^ 62 }
    ensures value { result ≡ below limit (number_of word.now) }
    ensures small { IfSome result (λ n. n < limit) }
{
    if word.starts_with(b"0x") {
        return read_digits(16, &word[2..], limit);
    }
    let last = word.len().checked_sub(1)?;
    match unit_at(word[last]) {
        Some(unit) => read_digits(10, &word[..last], limit)?
            .checked_mul(unit)
            .filter(|n| *n < limit),
        None => read_digits(10, word, limit),
    }
}

/// What a letter behind decimal digits multiplies by.
pub(crate) fn unit_at(letter: u8) -> Option<u64>
    ensures { result ≡ unit_of letter }
{
    match letter {
        b'k' => Some(1024),
        b'M' => Some(1024 * 1024),
        b'G' => Some(1024 * 1024 * 1024),
        _ => None,
    }
}

/// The number of these digits, where it is below the limit and they are digits.
pub(crate) fn read_digits(base: u32, digits: &[u8], limit: u64) -> Option<u64>
    requires low { 2 ≤ base }
    requires high { base ≤ 16 }
    requires limit { limit ≤ 2 ^ 62 }
    ensures value { result ≡ below limit (numeral base digits.now) }
    ensures small { IfSome result (λ n. n < limit) }
{
    if digits.is_empty() {
        return None;
    }
    let mut value = 0;
    for digit in digits {
        let digit = char::from(*digit).to_digit(base)?;
        value = appended(value, base, digit, limit)?;
    }
    Some(value)
}

/// The number with one more digit, where it is below the limit.
fn appended(value: u64, base: u32, digit: u32, limit: u64) -> Option<u64>
    ensures { SomeIff result (value * base + digit < limit) (value * base + digit) }
{
    let moved = value.checked_mul(u64::from(base))?;
    let next = moved.checked_add(u64::from(digit))?;
    if next < limit { Some(next) } else { None }
}
