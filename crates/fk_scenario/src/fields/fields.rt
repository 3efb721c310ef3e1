//! The fields of a table: their types and ranges.
ghost use Rattle.std.specs.Prelude.{◌≡◌, ◌≤◌, [], map, option_map, is_some, IfOk};
ghost use Rattle.toml.specs.Data.{get_member};
ghost use Rattle.toml.specs.View.{view, table_view, array_view};
ghost use Rattle.fk_scenario.specs.Fields.Gives.{Gives, unless as refused_unless};
ghost use Rattle.fk_scenario.specs.Fields.Fields as fields;

use crate::fields::fail::{Fail, rule};
use fk_model::List;
use std::alloc::Global;
use toml::value::Array;
use toml::{Table, Value};

/// Refuses by a rule unless a test holds.
///
/// # Errors
///
/// `Rule`, with this rule: the test doesn't hold.
pub fn unless(broken: u8, holds: bool) -> Result<(), Fail>
    ensures { Gives (λ x. x) result (refused_unless broken holds) }
{
    if holds {
        Ok(())
    } else {
        Err(Fail::Rule(broken))
    }
}

/// What a key has.
fn value_in<'a>(table: &'a Table, key: &str) -> Option<&'a Value>
    ensures { option_map (λ v. view v.now) result ≡ get_member key.now (table_view table.now) }
{
    table.get(key)
}

fn is_among(keys: &[&str], key: &str) -> bool
    ensures { result ≡ fields.is_among (map (λ k. k.now) keys.now) key.now }
{
    for known in keys {
        if key == *known {
            return true;
        }
    }
    false
}

/// Refuses a table with a key that isn't one of these.
///
/// # Errors
///
/// `Rule`, with the rule of keys: the table has another key.
#[tactic(auto, unfolding(crate::specs::Fields::Fields::known))]
pub fn known(keys: &[&str], table: &Table) -> Result<(), Fail>
    ensures { Gives (λ x. x) result (fields.known (map (λ k. k.now) keys.now) (table_view table.now)) }
{
    for (key, _) in table {
        if !is_among(keys, key.as_str()) {
            return Err(Fail::Rule(rule::KEYS));
        }
    }
    Ok(())
}

/// The text at a key, if the key is there.
///
/// # Errors
///
/// `Rule`, with the rule of keys: what stands there is no text.
#[tactic(auto, unfolding(crate::specs::Fields::Fields::text_in))]
pub fn text_in<'a>(table: &'a Table, key: &str) -> Result<Option<&'a str>, Fail>
    ensures { Gives (λ x. option_map (λ s. s.now) x) result (fields.text_in key.now (table_view table.now)) }
{
    match value_in(table, key) {
        None => Ok(None),
        Some(value) => match value.as_str() {
            Some(text) => Ok(Some(text)),
            None => Err(Fail::Rule(rule::KEYS)),
        },
    }
}

/// The text at a key that has to be there.
///
/// # Errors
///
/// `Rule`, with the rule of keys: the key isn't there, or what stands there is no text.
#[tactic(auto, unfolding(crate::specs::Fields::Fields::needed_text))]
pub fn needed_text<'a>(table: &'a Table, key: &str) -> Result<&'a str, Fail>
    ensures { Gives (λ s. s.now) result (fields.needed_text key.now (table_view table.now)) }
{
    match text_in(table, key)? {
        Some(text) => Ok(text),
        None => Err(Fail::Rule(rule::KEYS)),
    }
}

/// The flag at a key, if the key is there.
///
/// # Errors
///
/// `Rule`, with the rule of keys: what stands there is neither `true` nor `false`.
#[tactic(auto, unfolding(crate::specs::Fields::Fields::flag_in))]
pub fn flag_in(table: &Table, key: &str) -> Result<Option<bool>, Fail>
    ensures { Gives (λ x. x) result (fields.flag_in key.now (table_view table.now)) }
{
    match value_in(table, key) {
        None => Ok(None),
        Some(value) => match value.as_bool() {
            Some(flag) => Ok(Some(flag)),
            None => Err(Fail::Rule(rule::KEYS)),
        },
    }
}

/// The number at a key, if the key is there.
///
/// # Errors
///
/// `Rule`, with the rule of keys: what stands there is no whole number.
#[tactic(auto, unfolding(crate::specs::Fields::Fields::integer_in))]
pub fn integer_in(table: &Table, key: &str) -> Result<Option<i64>, Fail>
    ensures { Gives (λ x. x) result (fields.integer_in key.now (table_view table.now)) }
{
    match value_in(table, key) {
        None => Ok(None),
        Some(value) => match value.as_integer() {
            Some(number) => Ok(Some(number)),
            None => Err(Fail::Rule(rule::KEYS)),
        },
    }
}

/// The number at a key that has to be there.
///
/// # Errors
///
/// `Rule`, with the rule of keys: the key isn't there, or what stands there is no whole number.
#[tactic(auto, unfolding(crate::specs::Fields::Fields::needed_integer))]
pub fn needed_integer(table: &Table, key: &str) -> Result<i64, Fail>
    ensures { Gives (λ x. x) result (fields.needed_integer key.now (table_view table.now)) }
{
    match integer_in(table, key)? {
        Some(number) => Ok(number),
        None => Err(Fail::Rule(rule::KEYS)),
    }
}

/// The array at a key, if the key is there.
///
/// # Errors
///
/// `Rule`, with the rule of keys: what stands there is no array.
#[tactic(auto, unfolding(crate::specs::Fields::Fields::array_in))]
pub fn array_in<'a>(table: &'a Table, key: &str) -> Result<Option<&'a Array>, Fail>
    ensures { Gives (λ x. option_map (λ a. array_view a.now) x) result (fields.array_in key.now (table_view table.now)) }
{
    match value_in(table, key) {
        None => Ok(None),
        Some(value) => match value.as_array() {
            Some(array) => Ok(Some(array)),
            None => Err(Fail::Rule(rule::KEYS)),
        },
    }
}

/// The table at a key, if the key is there.
///
/// # Errors
///
/// `Rule`, with the rule of keys: what stands there is no table.
#[tactic(auto, unfolding(crate::specs::Fields::Fields::table_in))]
pub fn table_in<'a>(table: &'a Table, key: &str) -> Result<Option<&'a Table>, Fail>
    ensures { Gives (λ x. option_map (λ t. table_view t.now) x) result (fields.table_in key.now (table_view table.now)) }
{
    match value_in(table, key) {
        None => Ok(None),
        Some(value) => match value.as_table() {
            Some(found) => Ok(Some(found)),
            None => Err(Fail::Rule(rule::KEYS)),
        },
    }
}

/// A number from `low` to `high`.
///
/// # Errors
///
/// `Rule`, with the rule of ranges: it is another number.
pub fn ranged(low: u64, high: u64, number: i64) -> Result<u64, Fail>
    ensures value { Gives (λ x. x) result (fields.ranged low high number) }
    ensures range { IfOk result (λ n. n ≤ high) }
{
    match u64::try_from(number) {
        Ok(number) if low <= number && number <= high => Ok(number),
        _ => Err(Fail::Rule(rule::RANGES)),
    }
}

/// A number from `low` to `high` where one is written, and else the default.
///
/// # Errors
///
/// `Rule`, with the rule of ranges: it is another number.
pub fn ranged_or(default: u64, low: u64, high: u64, number: Option<i64>) -> Result<u64, Fail>
    requires { default ≤ high }
    ensures value { Gives (λ x. x) result (fields.ranged_or default low high number) }
    ensures range { IfOk result (λ n. n ≤ high) }
{
    match number {
        None => Ok(default),
        Some(number) => ranged(low, high, number),
    }
}

/// The numbers of an array.
///
/// # Errors
///
/// `Rule`, with the rule of keys: an item is no whole number. `NoMemory`: there is none for the list.
#[tactic(auto, unfolding(crate::specs::Fields::Fields::integers_from))]
pub fn integers_of(alloc: Global, array: &Array) -> Result<List<i64>, Fail>
    ensures { Gives (λ x. x) result (fields.integers_from [] (array_view array.now)) }
{
    let mut numbers = List::new(alloc);
    for value in array {
        match value.as_integer() {
            Some(number) => numbers.push(number)?,
            None => return Err(Fail::Rule(rule::KEYS)),
        }
    }
    Ok(numbers)
}

/// The numbers of the array at a key, none if the key isn't there.
///
/// # Errors
///
/// `Rule`, with the rule of keys: what stands there is no array, or an item of it no whole number. `NoMemory`: there is none for the list.
#[tactic(auto, unfolding(crate::specs::Fields::Fields::integers_in))]
pub fn integers_in(alloc: Global, table: &Table, key: &str) -> Result<List<i64>, Fail>
    ensures { Gives (λ x. x) result (fields.integers_in key.now (table_view table.now)) }
{
    match array_in(table, key)? {
        None => Ok(List::new(alloc)),
        Some(array) => integers_of(alloc, array),
    }
}

/// Numbers from 0 to 255.
///
/// # Errors
///
/// `Rule`, with the rule of ranges: a number isn't among these. `NoMemory`: there is none for the list.
#[tactic(auto, unfolding(crate::specs::Fields::Fields::bytes_from))]
pub fn bytes_of(alloc: Global, numbers: &[i64]) -> Result<List<u8>, Fail>
    ensures { Gives (λ x. x) result (fields.bytes_from [] numbers.now) }
{
    let mut bytes = List::new(alloc);
    for number in numbers {
        bytes.push(ranged(0, 255, *number)? as u8)?;
    }
    Ok(bytes)
}

/// Numbers from 0 to 2^63 - 1.
///
/// # Errors
///
/// `Rule`, with the rule of ranges: a number isn't among these. `NoMemory`: there is none for the list.
#[tactic(auto, unfolding(crate::specs::Fields::Fields::words_from))]
pub fn words_of(alloc: Global, numbers: &[i64]) -> Result<List<u64>, Fail>
    ensures { Gives (λ x. x) result (fields.words_from [] numbers.now) }
{
    let mut words = List::new(alloc);
    for number in numbers {
        words.push(ranged(0, 9_223_372_036_854_775_807, *number)?)?;
    }
    Ok(words)
}
