//! The rows of a table: which members an object has, and what their values are.

use crate::form::Form;

/// What the value of a member is.
#[derive(Clone, Copy)]
pub(crate) enum Kind {
    Text,
    /// A number without fraction and exponent, of 64 bits with or without a sign.
    Integer,
    Flag,
    FlagOrText,
    TextOrNull,
    /// A list of texts.
    Texts,
    /// Any value in which no number has a fraction or an exponent.
    Exact,
    /// An object with these members.
    Object(Form),
    /// A text, or an object with these members.
    TextOrObject(Form),
    /// A list of objects with these members.
    Objects(Form),
    /// A list in which each item is a text or an object with these members.
    TextsOrObjects(Form),
}

/// A member by its name: one that an object needs, or one that it may have.
pub(crate) enum Row<N> {
    Needs(N, Kind),
    Takes(N, Kind),
}
