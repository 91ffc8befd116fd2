//! The fields of a table.

ghost use Rattle.std.specs.Prelude.{◌≡◌, ◌≤◌, None, Some, IfOk, IfSome, map, option_map, vec_len, if◌then◌else◌};
ghost use Rattle.toml.specs.Data.{get_member};
ghost use Rattle.toml.specs.View.{view, table_view, array_view};
ghost use Rattle.chain_spec.specs.ChainSet.{is_among};
ghost use Rattle.chain_spec.specs.Fields as spec;
ghost use Rattle.chain_text.specs.Gives.{Gives};

use crate::fault::{ChainFault, missing, range, unknown};
use std::alloc::Global;
use toml::value::Array;
use toml::{Table, Value};

pub(crate) fn is_among(key: &str, row: &[&str]) -> bool
    ensures { result ≡ is_among key.now (map (λ r. r.now) row.now) }
{
    for k in row {
        if *k == key {
            return true;
        }
    }
    false
}

/// The key, where the row does not have it.
fn other_than<'a>(row: &[&str], key: &'a str) -> Option<&'a str>
    ensures { option_map (λ k. k.now) result
        ≡ (if is_among key.now (map (λ r. r.now) row.now) then None else Some key.now) }
{
    if is_among(key, row) { None } else { Some(key) }
}

/// The least key by bytes that the row does not have. The keys of a table ascend, so it is the first.
fn stranger<'a>(row: &[&str], table: &'a Table) -> Option<&'a str>
    ensures { option_map (λ k. k.now) result ≡ spec.stranger (map (λ r. r.now) row.now) (table_view table.now) }
{
    let mut least = None;
    'members: for (key, _value) in table.iter() {
        least = least.or(other_than(row, key.as_str()));
    }
    least
}

/// No key but the row's: else Unknown, with the least other key by bytes.
#[tactic(auto, unfolding(chain_spec::specs::Fields::known))]
pub fn known(alloc: Global, place: u32, row: &[&str], table: &Table) -> Result<(), ChainFault>
    ensures { Gives (λ _. tt) result (spec.known place (map (λ r. r.now) row.now) (table_view table.now)) }
{
    match stranger(row, table) {
        Some(key) => Err(unknown(alloc, place, key)),
        None => Ok(()),
    }
}

/// The value of a key.
pub fn value_at<'a>(table: &'a Table, key: &str) -> Option<&'a Value>
    ensures { option_map (λ v. view v.now) result ≡ get_member key.now (table_view table.now) }
{
    table.get(key)
}

/// The value of a key that has to be there: else Missing.
#[tactic(auto, unfolding(chain_spec::specs::Fields::required))]
pub fn required<'a>(
    alloc: Global,
    place: u32,
    key: &str,
    table: &'a Table,
) -> Result<&'a Value, ChainFault>
    ensures { Gives (λ v. view v.now) result (spec.required place key.now (table_view table.now)) }
{
    match value_at(table, key) {
        Some(value) => Ok(value),
        None => Err(missing(alloc, place, key)),
    }
}

/// The text of a key's value: else Range.
#[tactic(auto, unfolding(chain_spec::specs::Fields::text_in))]
pub fn text_in<'a>(
    alloc: Global,
    place: u32,
    key: &str,
    value: &'a Value,
) -> Result<&'a str, ChainFault>
    ensures { Gives (λ t. t.now) result (spec.text_in place key.now (view value.now)) }
{
    match value.as_str() {
        Some(text) => Ok(text),
        None => Err(range(alloc, place, key)),
    }
}

/// The table that a key's value or an array's member is: else Range.
#[tactic(auto, unfolding(chain_spec::specs::Fields::table_in))]
pub fn table_in<'a>(
    alloc: Global,
    place: u32,
    key: &str,
    value: &'a Value,
) -> Result<&'a Table, ChainFault>
    ensures { Gives (λ t. table_view t.now) result (spec.table_in place key.now (view value.now)) }
{
    match value.as_table() {
        Some(table) => Ok(table),
        None => Err(range(alloc, place, key)),
    }
}

fn natural(number: i64) -> Option<u64>
    ensures { result ≡ spec.natural number }
{
    if number < 0 {
        None
    } else {
        Some(number as u64)
    }
}

fn within(low: u64, high: u32, number: u64) -> Option<u32>
    ensures value { result ≡ spec.within low high number }
    ensures bounds { IfSome result (λ n. (low ≤ n) × (n ≤ high)) }
{
    if low <= number && number <= high as u64 {
        Some(number as u32)
    } else {
        None
    }
}

fn number_from(low: u64, high: u32, value: &Value) -> Option<u32>
    ensures value { result ≡ spec.number_from low high (view value.now) }
    ensures bounds { IfSome result (λ n. (low ≤ n) × (n ≤ high)) }
{
    let number = value.as_integer()?;
    within(low, high, natural(number)?)
}

/// A number from low to high: else Range.
#[tactic(auto, unfolding(chain_spec::specs::Fields::number_in))]
pub fn number_in(
    alloc: Global,
    place: u32,
    key: &str,
    low: u64,
    high: u32,
    value: &Value,
) -> Result<u32, ChainFault>
    ensures value { Gives (λ n. n) result (spec.number_in place key.now low high (view value.now)) }
    ensures bounds { IfOk result (λ n. (low ≤ n) × (n ≤ high)) }
{
    match number_from(low, high, value) {
        Some(number) => Ok(number),
        None => Err(range(alloc, place, key)),
    }
}

/// The same, with a default where there is no value.
pub fn number_or(
    alloc: Global,
    place: u32,
    key: &str,
    low: u32,
    high: u32,
    default: u32,
    value: Option<&Value>,
) -> Result<u32, ChainFault>
    requires { (low ≤ default) × (default ≤ high) }
    ensures value { Gives (λ n. n) result
        (spec.number_or place key.now low high default (option_map (λ v. view v.now) value.entry)) }
    ensures bounds { IfOk result (λ n. (low ≤ n) × (n ≤ high)) }
{
    match value {
        None => Ok(default),
        Some(value) => number_in(alloc, place, key, low as u64, high, value),
    }
}

/// The same, and none where there is no value.
pub fn number_at(
    alloc: Global,
    place: u32,
    key: &str,
    low: u32,
    high: u32,
    value: Option<&Value>,
) -> Result<Option<u32>, ChainFault>
    ensures value { Gives (λ n. n) result
        (spec.number_at place key.now low high (option_map (λ v. view v.now) value.entry)) }
    ensures bounds { IfOk result (λ number. IfSome number (λ n. (low ≤ n) × (n ≤ high))) }
{
    match value {
        None => Ok(None),
        Some(value) => {
            let number = number_in(alloc, place, key, low as u64, high, value)?;
            Ok(Some(number))
        }
    }
}

/// How many members the array has.
pub fn count_of(array: &Array) -> usize
    ensures members { result ≡ spec.count (array_view array.now) }
    ensures len { result ≡ vec_len array.now }
{
    array.len()
}

/// The array of low to high members that a key's value is: else Range.
#[tactic(auto, unfolding(chain_spec::specs::Fields::array_in))]
pub fn array_in<'a>(
    alloc: Global,
    place: u32,
    key: &str,
    low: usize,
    high: usize,
    value: &'a Value,
) -> Result<&'a Array, ChainFault>
    ensures value { Gives (λ a. array_view a.now) result (spec.array_in place key.now low high (view value.now)) }
    ensures bounds { IfOk result (λ a. (low ≤ vec_len a.now) × (vec_len a.now ≤ high)) }
{
    let Some(array) = value.as_array() else {
        return Err(range(alloc, place, key));
    };
    let count = count_of(array);
    if low <= count && count <= high {
        Ok(array)
    } else {
        Err(range(alloc, place, key))
    }
}
