//! The values of an object's members. Each reader is total: what the tables ask of a member is looked at before.

ghost use Rattle.std.specs.Prelude.{◌≡◌, IfOk, option_map, string_bytes};
ghost use Rattle.serde_json.specs.View.{view};
ghost use Rattle.serde_json.specs.View.{number_view};
ghost use Rattle.qmp_codec.specs.Forms.{text_in};
ghost use Rattle.qmp_codec.specs.Fields.{text_if, flag_if, amount_of, amount_if, amount_in};

use crate::form::text_of;
use serde_json::{Number, Value};
use std::alloc::{AllocError, Global};

/// A number of a member.
#[derive(Clone, Copy)]
pub enum Amount {
    Number(u64),
    /// A number below zero, which no member accepts as a value.
    Negative,
}

/// A copy of the text of a member that is needed.
pub(crate) fn text_at(alloc: Global, object: &Value, name: &str) -> Result<String, AllocError>
    ensures { IfOk result (λ s. string_bytes s ≡ text_in name.now (view object.now)) }
{
    String::from_str(alloc, text_of(object, name))
}

/// The text of a member that may be absent.
pub(crate) fn maybe_str<'a>(object: &'a Value, name: &str) -> Option<&'a str>
    ensures { option_map (λ s. s.now) result ≡ text_if name.now (view object.now) }
{
    object.get(name)?.as_str()
}

/// A copy of the text of a member that may be absent.
pub(crate) fn maybe_text(
    alloc: Global,
    object: &Value,
    name: &str,
) -> Result<Option<String>, AllocError>
    ensures { IfOk result (λ o. option_map string_bytes o ≡ text_if name.now (view object.now)) }
{
    match maybe_str(object, name) {
        Some(text) => Ok(Some(String::from_str(alloc, text)?)),
        None => Ok(None),
    }
}

/// The flag of a member that may be absent.
pub(crate) fn maybe_flag(object: &Value, name: &str) -> Option<bool>
    ensures { result ≡ flag_if name.now (view object.now) }
{
    object.get(name)?.as_bool()
}

fn to_amount(number: &Number) -> Option<Amount>
    ensures { result ≡ amount_of (number_view number.now) }
{
    if number.is_f64() {
        return None;
    }
    match number.as_u64() {
        Some(n) => Some(Amount::Number(n)),
        None => Some(Amount::Negative),
    }
}

/// The number of a member that may be absent.
pub(crate) fn maybe_amount(object: &Value, name: &str) -> Option<Amount>
    ensures { result ≡ amount_if name.now (view object.now) }
{
    to_amount(object.get(name)?.as_number()?)
}

/// The number of a member that is needed.
pub(crate) fn amount_at(object: &Value, name: &str) -> Amount
    ensures { result ≡ amount_in name.now (view object.now) }
{
    match maybe_amount(object, name) {
        Some(amount) => amount,
        None => Amount::Number(0),
    }
}
