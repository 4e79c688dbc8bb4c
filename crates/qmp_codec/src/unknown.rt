//! Names of members that no table accepts.

ghost use Rattle.std.specs.Prelude.{◌≡◌, ◌-◌, ◌<◌, option_map, map, None};
ghost use Rattle.serde_json.specs.View.{view, items_view, members_view};
ghost use Rattle.qmp_codec.specs.Tables.{named, row_name, kind_of};
ghost use Rattle.qmp_codec.specs.Walk.{least, accepts, unknown_in, members_unknown, part_unknown, least_of_parts, least_of_first, unknown_inside, rows_unknown, least_unknown};

use crate::form::{Form, form_of};
use crate::row::{Kind, Row};
use crate::tables::table;
use serde_json::{Map, Value};
use std::cmp::Ordering;

/// The least of two names, where there is one.
fn lesser<'a>(one: Option<&'a str>, other: Option<&'a str>) -> Option<&'a str>
    ensures { option_map (λ s. s.now) result
        ≡ least (option_map (λ s. s.now) one.entry) (option_map (λ s. s.now) other.entry) }
{
    match (one, other) {
        (Some(a), Some(b)) => match a.cmp(b) {
            Ordering::Less | Ordering::Equal => Some(a),
            Ordering::Greater => Some(b),
        },
        (Some(a), None) => Some(a),
        (None, _) => other,
    }
}

/// Some row has this name.
#[tactic(auto, using(crate::proofs::Items::rows_step, crate::proofs::Items::rows_end))]
fn has_row(rows: &[Row<&'static str>], name: &str) -> bool
    ensures { result ≡ accepts (map named rows.now) name.now }
{
    for row in rows {
        let (Row::Needs(known, _) | Row::Takes(known, _)) = row;
        if *known == name {
            return true;
        }
    }
    false
}

/// The least of these names that no row has.
fn unknown_member<'a>(
    rows: &[Row<&'static str>],
    members: &'a Map<String, Value>,
) -> Option<&'a str>
    ensures { option_map (λ s. s.now) result
        ≡ unknown_in (map named rows.now) None (members_view members.now.entries) }
{
    let mut found = None;
    for (name, _) in members.iter() {
        if !has_row(rows, name.as_str()) {
            found = lesser(found, Some(name.as_str()));
        }
    }
    found
}

fn own_unknown<'a>(rows: &[Row<&'static str>], object: &'a Value) -> Option<&'a str>
    ensures { option_map (λ s. s.now) result
        ≡ members_unknown (map named rows.now) (view object.now) }
{
    match object {
        Value::Object(members) => unknown_member(rows, members),
        _ => None,
    }
}

/// The least name that no table accepts, in an object that stands in a member of the object around. Tables lie in one
/// another `depth` deep. Of several actions the first that has such a name counts.
#[cycle(unknown)]
#[tactic(auto, using(crate::proofs::Faults::least_unknown_none, crate::proofs::Faults::least_unknown_step))]
pub(crate) fn object_unknown<'a>(
    depth: u8,
    form: Form,
    around: &Value,
    object: &'a Value,
) -> Option<&'a str>
    ensures { option_map (λ s. s.now) result
        ≡ least_unknown depth form (view around.now) (view object.now) }
{
    if depth == 0 {
        return None;
    }
    let rows = table(form_of(form, around, object));
    lesser(
        own_unknown(rows, object),
        inner_unknown(depth - 1, rows, object),
    )
}

#[cycle(unknown)]
#[tactic(auto, using(crate::proofs::Items::rows_step, crate::proofs::Items::rows_end))]
fn inner_unknown<'a>(depth: u8, rows: &[Row<&'static str>], object: &'a Value) -> Option<&'a str>
    ensures { option_map (λ s. s.now) result ≡ rows_unknown
        (λ inner part. least_unknown depth inner (view object.now) part) (view object.now) None
        (map named rows.now) }
{
    let mut found = None;
    for row in rows {
        found = lesser(found, row_unknown(depth, object, row));
    }
    found
}

#[cycle(unknown)]
fn row_unknown<'a>(depth: u8, object: &'a Value, row: &Row<&'static str>) -> Option<&'a str>
    ensures { option_map (λ s. s.now) result ≡ unknown_inside
        (λ inner part. least_unknown depth inner (view object.now) part)
        (view object.now) (row_name (named row.now)) (kind_of (named row.now)) }
{
    let (Row::Needs(name, kind) | Row::Takes(name, kind)) = row;
    match kind {
        Kind::Object(form) | Kind::TextOrObject(form) => match object.get(*name) {
            Some(value) => part_unknown(depth, *form, object, value),
            None => None,
        },
        Kind::Objects(form) => match object.get(*name) {
            Some(Value::Array(items)) => first_of_parts(depth, *form, object, items),
            _ => None,
        },
        Kind::TextsOrObjects(form) => match object.get(*name) {
            Some(Value::Array(items)) => least_of_parts(depth, *form, object, items),
            _ => None,
        },
        _ => None,
    }
}

#[cycle(unknown)]
#[tactic(auto, using(crate::proofs::Items::items_step, crate::proofs::Items::items_end))]
fn first_of_parts<'a>(
    depth: u8,
    form: Form,
    around: &Value,
    items: &'a Vec<Value>,
) -> Option<&'a str>
    ensures { option_map (λ s. s.now) result ≡ least_of_first
        (λ p. least_unknown depth form (view around.now) p) (items_view items.now.items) }
{
    for item in items {
        if let Some(name) = part_unknown(depth, form, around, item) {
            return Some(name);
        }
    }
    None
}

#[cycle(unknown)]
#[tactic(auto, using(crate::proofs::Items::items_step, crate::proofs::Items::items_end))]
fn least_of_parts<'a>(
    depth: u8,
    form: Form,
    around: &Value,
    items: &'a Vec<Value>,
) -> Option<&'a str>
    ensures { option_map (λ s. s.now) result ≡ least_of_parts
        (λ p. least_unknown depth form (view around.now) p) None (items_view items.now.items) }
{
    let mut found = None;
    for item in items {
        found = lesser(found, part_unknown(depth, form, around, item));
    }
    found
}

#[cycle(unknown)]
fn part_unknown<'a>(depth: u8, form: Form, around: &Value, value: &'a Value) -> Option<&'a str>
    ensures { option_map (λ s. s.now) result ≡ part_unknown
        (λ p. least_unknown depth form (view around.now) p) (view value.now) }
{
    match value {
        Value::Object(_) => object_unknown(depth, form, around, value),
        _ => None,
    }
}
