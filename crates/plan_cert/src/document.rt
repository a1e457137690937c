// Certificates as JSON text.
ghost use Rattle.std.specs.Prelude.{◌≡◌, ℕ, Option, Some, option_map, option_and_then, codes, IfOk, IfSome, IfNone};
ghost use Rattle.serde_json.specs.Data.{Data};
ghost use Rattle.serde_json.specs.View.{view, items_view};
ghost use Rattle.plan_cert.specs.Document.{choice_named, number_at, choice_at, has_items, row_of, rows_of, has_number, has_members, is_version_one, is_version_two, has_head, document_rows, IsJson};

use crate::certificate::Row;
use memory::NoMemory;
use serde_json::Value;
use std::alloc::Global;
use tree_model::Rule;

/// The value that a text is, if it is JSON.
pub(crate) fn json_value(alloc: Global, text: &[u8]) -> Result<Option<Value>, NoMemory>
    ensures some { IfOk result (λ o. IfSome o (λ v. IsJson text.now (view v))) }
    ensures none { IfOk result (λ o. IfNone o ((d : Data) → IsJson text.now d → ⊥)) }
{
    match Value::from_slice(alloc, text) {
        Ok(value) => Ok(Some(value)),
        Err(error) => {
            if error.is_memory() {
                Err(NoMemory)
            } else {
                Ok(None)
            }
        }
    }
}

/// The rows of a certificate for this size and weight.
pub(crate) fn document_rows(
    alloc: Global,
    size: u64,
    weight: u64,
    value: &Value,
) -> Result<Option<Vec<Row>>, NoMemory>
    ensures { IfOk result
        (λ o. option_map (λ rows. rows.items) o ≡ document_rows size weight (view value.now)) }
{
    if !has_head(value, size, weight) {
        return Ok(None);
    }
    let Some(rows) = value.get("rows").and_then(Value::as_array) else {
        return Ok(None);
    };
    rows_of(alloc, rows)
}

/// What stands in a certificate for this size and weight beside its rows.
fn has_head(value: &Value, size: u64, weight: u64) -> bool
    ensures { result ≡ has_head size weight (view value.now) }
{
    has_number(value, "size", size)
        && (is_version_one(value, weight) || is_version_two(value, weight))
}

/// Version 1 has rows, size and version; a multiplication weighs 1.
fn is_version_one(value: &Value, weight: u64) -> bool
    ensures { result ≡ is_version_one weight (view value.now) }
{
    weight == 1 && has_members(value, 3) && has_number(value, "version", 1)
}

/// Version 2 has rows, size, version and the weight.
fn is_version_two(value: &Value, weight: u64) -> bool
    ensures { result ≡ is_version_two weight (view value.now) }
{
    has_number(value, "weight", weight) && has_members(value, 4) && has_number(value, "version", 2)
}

fn has_members(value: &Value, count: usize) -> bool
    ensures { result ≡ has_members count (view value.now) }
{
    match value.as_object() {
        Some(members) => members.len() == count,
        None => false,
    }
}

fn has_five_items(value: &Value) -> bool
    ensures { result ≡ has_items 5 (view value.now) }
{
    match value.as_array() {
        Some(items) => items.len() == 5,
        None => false,
    }
}

fn has_number(value: &Value, name: &str, number: u64) -> bool
    ensures { result ≡ has_number name.now number (view value.now) }
{
    match value.get(name).and_then(Value::as_u64) {
        Some(found) => found == number,
        None => false,
    }
}

fn rows_of(alloc: Global, values: &[Value]) -> Result<Option<Vec<Row>>, NoMemory>
    ensures { IfOk result
        (λ o. option_map (λ rows. rows.items) o ≡ rows_of (items_view values.now)) }
{
    let mut rows = Vec::new(alloc);
    for value in values {
        let Some(row) = row_of(value) else {
            return Ok(None);
        };
        rows.push(row)?;
    }
    Ok(Some(rows))
}

fn row_of(value: &Value) -> Option<Row>
    ensures { result ≡ row_of (view value.now) }
{
    if !has_five_items(value) {
        return None;
    }
    let size = number_at(value, 0)?;
    let cost = number_at(value, 1)?;
    let rule = choice_at(value, 2)?;
    let left = number_at(value, 3)?;
    let right = number_at(value, 4)?;
    Some(Row {
        size,
        cost,
        rule,
        left,
        right,
    })
}

fn number_at(value: &Value, index: usize) -> Option<u64>
    ensures { result ≡ number_at index (view value.now) }
{
    value.get(index).and_then(Value::as_u64)
}

fn choice_at(value: &Value, index: usize) -> Option<Option<Rule>>
    ensures { result ≡ choice_at index (view value.now) }
{
    value
        .get(index)
        .and_then(Value::as_str)
        .and_then(choice_named)
}

/// The rule of this name, or none for a leaf.
fn choice_named(name: &str) -> Option<Option<Rule>>
    ensures { result ≡ choice_named name.now }
{
    match name {
        "leaf" => Some(None),
        "gt" => Some(Some(Rule::Gt)),
        "ct" => Some(Some(Rule::Ct)),
        "split" => Some(Some(Rule::Split)),
        "dim" => Some(Some(Rule::Dim)),
        _ => None,
    }
}
