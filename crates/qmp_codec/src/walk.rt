//! What is wrong with the members of an object, those of objects inside it included.

ghost use Rattle.std.specs.Prelude.{◌≡◌, ◌-◌, ◌<◌, option_map, true, false};
ghost use Rattle.serde_json.specs.View.{view, items_view, members_view};
ghost use Rattle.serde_json.specs.Written.{has_float, items_have_float, members_have_float};
ghost use Rattle.serde_json.specs.Find.{get};
ghost use Rattle.qmp_codec.specs.Tables.{named, row_name};
ghost use Rattle.qmp_codec.specs.Walk.{is_integer, are_texts, is_list_of_texts, fits, absent, wrong, part_fault, parts_fault, list_fault, value_fault, member_fault, first_fault};

use crate::form::{Form, form_of};
use crate::row::{Kind, Row};
use crate::tables::table;
use serde_json::{Map, Value};

/// What is looked for.
#[derive(Clone, Copy)]
pub(crate) enum Search {
    /// A member that is needed and absent.
    Missing,
    /// A member whose value is of another kind.
    Mistyped,
}

/// What a value with a table may be beside an object.
#[derive(Clone, Copy)]
struct Part {
    form: Form,
    texts: bool,
}

/// Some number in a value has a fraction or an exponent.
#[cycle(fraction)]
#[tactic(auto, using(crate::proofs::Items::items_step, crate::proofs::Items::items_end))]
pub(crate) fn has_fraction(value: &Value) -> bool
    ensures { result ≡ has_float (view value.now) }
{
    match value {
        Value::Null | Value::Bool(_) | Value::String(_) => false,
        Value::Number(number) => number.is_f64(),
        Value::Array(items) => items_have_fraction(items),
        Value::Object(members) => members_have_fraction(members),
    }
}

#[cycle(fraction)]
#[tactic(auto, using(crate::proofs::Items::items_step, crate::proofs::Items::items_end))]
fn items_have_fraction(items: &Vec<Value>) -> bool
    ensures { result ≡ items_have_float (items_view items.now.items) }
{
    for item in items {
        if has_fraction(item) {
            return true;
        }
    }
    false
}

#[cycle(fraction)]
#[tactic(auto, using(crate::proofs::Items::items_step, crate::proofs::Items::items_end))]
fn members_have_fraction(members: &Map<String, Value>) -> bool
    ensures { result ≡ members_have_float (members_view members.now.entries) }
{
    for (_, value) in members.iter() {
        if has_fraction(value) {
            return true;
        }
    }
    false
}

fn is_whole(value: &Value) -> bool
    ensures { result ≡ is_integer (view value.now) }
{
    match value {
        Value::Number(number) => !number.is_f64(),
        _ => false,
    }
}

fn is_texts(value: &Value) -> bool
    ensures { result ≡ is_list_of_texts (view value.now) }
{
    match value {
        Value::Array(items) => all_texts(items),
        _ => false,
    }
}

#[tactic(auto, using(crate::proofs::Items::items_step, crate::proofs::Items::items_end))]
fn all_texts(items: &Vec<Value>) -> bool
    ensures { result ≡ are_texts (items_view items.now.items) }
{
    for item in items {
        if !item.is_string() {
            return false;
        }
    }
    true
}

/// A value is of its kind; a kind with a table is looked at elsewhere.
fn is_of(kind: Kind, value: &Value) -> bool
    ensures { result ≡ fits kind (view value.now) }
{
    match kind {
        Kind::Text => value.is_string(),
        Kind::Integer => is_whole(value),
        Kind::Flag => value.is_boolean(),
        Kind::FlagOrText => value.is_boolean() || value.is_string(),
        Kind::TextOrNull => value.is_null() || value.is_string(),
        Kind::Texts => is_texts(value),
        Kind::Exact => !has_fraction(value),
        Kind::Object(_) | Kind::TextOrObject(_) | Kind::Objects(_) | Kind::TextsOrObjects(_) => {
            false
        }
    }
}

/// The name of a member whose value is of another kind, where that is looked for.
fn misfit(search: Search, name: &'static str) -> Option<&'static str>
    ensures { option_map (λ s. s.now) result ≡ wrong search name.now }
{
    match search {
        Search::Missing => None,
        Search::Mistyped => Some(name),
    }
}

/// The name of a member that is needed, where absent ones are looked for.
fn gap(search: Search, row: &Row<&'static str>) -> Option<&'static str>
    ensures { option_map (λ s. s.now) result ≡ absent search (named row.now) }
{
    match (search, row) {
        (Search::Missing, Row::Needs(name, _)) => Some(*name),
        _ => None,
    }
}

/// The first fault of an object that stands in a member of the object around. Tables lie in one another `depth` deep.
#[cycle(fault)]
#[tactic(auto, using(crate::proofs::Items::rows_step, crate::proofs::Items::rows_end, crate::proofs::Faults::first_fault_none, crate::proofs::Faults::first_fault_step))]
pub(crate) fn object_fault(
    search: Search,
    depth: u8,
    form: Form,
    around: &Value,
    object: &Value,
) -> Option<&'static str>
    ensures { option_map (λ s. s.now) result
        ≡ first_fault depth search form (view around.now) (view object.now) }
{
    if depth == 0 {
        return None;
    }
    for row in table(form_of(form, around, object)) {
        if let Some(name) = row_fault(search, depth - 1, object, row) {
            return Some(name);
        }
    }
    None
}

#[cycle(fault)]
fn row_fault(
    search: Search,
    depth: u8,
    object: &Value,
    row: &Row<&'static str>,
) -> Option<&'static str>
    ensures { option_map (λ s. s.now) result ≡ member_fault search
        (λ inner part. first_fault depth search inner (view object.now) part)
        (named row.now) (get (row_name (named row.now)) (view object.now)) }
{
    let (Row::Needs(name, kind) | Row::Takes(name, kind)) = row;
    match object.get(*name) {
        Some(value) => value_fault(search, depth, object, *name, *kind, value),
        None => gap(search, row),
    }
}

#[cycle(fault)]
fn value_fault(
    search: Search,
    depth: u8,
    around: &Value,
    name: &'static str,
    kind: Kind,
    value: &Value,
) -> Option<&'static str>
    ensures { option_map (λ s. s.now) result ≡ value_fault (wrong search name.now)
        (λ inner part. first_fault depth search inner (view around.now) part) kind
        (view value.now) }
{
    match kind {
        Kind::Object(form) => part_fault(
            search,
            depth,
            Part { form, texts: false },
            around,
            name,
            value,
        ),
        Kind::TextOrObject(form) => part_fault(
            search,
            depth,
            Part { form, texts: true },
            around,
            name,
            value,
        ),
        Kind::Objects(form) => list_fault(
            search,
            depth,
            Part { form, texts: false },
            around,
            name,
            value,
        ),
        Kind::TextsOrObjects(form) => list_fault(
            search,
            depth,
            Part { form, texts: true },
            around,
            name,
            value,
        ),
        _ if is_of(kind, value) => None,
        _ => misfit(search, name),
    }
}

#[cycle(fault)]
fn list_fault(
    search: Search,
    depth: u8,
    part: Part,
    around: &Value,
    name: &'static str,
    value: &Value,
) -> Option<&'static str>
    ensures { option_map (λ s. s.now) result ≡ list_fault (wrong search name.now)
        (λ p. first_fault depth search part.form (view around.now) p) part.texts (view value.now) }
{
    match value {
        Value::Array(items) => parts_fault(search, depth, part, around, name, items),
        _ => misfit(search, name),
    }
}

#[cycle(fault)]
#[tactic(auto, using(crate::proofs::Items::items_step, crate::proofs::Items::items_end))]
fn parts_fault(
    search: Search,
    depth: u8,
    part: Part,
    around: &Value,
    name: &'static str,
    items: &Vec<Value>,
) -> Option<&'static str>
    ensures { option_map (λ s. s.now) result ≡ parts_fault (wrong search name.now)
        (λ p. first_fault depth search part.form (view around.now) p) part.texts
        (items_view items.now.items) }
{
    for item in items {
        if let Some(found) = part_fault(search, depth, part, around, name, item) {
            return Some(found);
        }
    }
    None
}

#[cycle(fault)]
fn part_fault(
    search: Search,
    depth: u8,
    part: Part,
    around: &Value,
    name: &'static str,
    value: &Value,
) -> Option<&'static str>
    ensures { option_map (λ s. s.now) result ≡ part_fault (wrong search name.now)
        (λ p. first_fault depth search part.form (view around.now) p) part.texts (view value.now) }
{
    match value {
        Value::Object(_) => object_fault(search, depth, part.form, around, value),
        Value::String(_) if part.texts => None,
        _ => misfit(search, name),
    }
}
