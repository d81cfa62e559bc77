//! Which lines tell what happens at a table, besides those of its game?

ghost use Rattle.std.specs.Prelude.{◌≡◌, IfOk, codes, string_bytes};
ghost use Rattle.serde_json.specs.View.{view};
ghost use Rattle.hb_json.specs.Line.{line};
ghost use Rattle.hb_json.specs.Values.{wholes_data};
ghost use Rattle.hb_wire.specs.WireLine.{action_or_null, clock_data, opened_data, review_data, viewer_data, watching_data};

use crate::lines::Role;
use crate::objects::text_value;
use hb_io::Name;
use hb_json::{action_value, line_text, options_value, seat_value};
use hb_rules::{Action, Options};
use serde_json::{Value, json};
use std::alloc::{AllocError, Global};

/// What the line that begins a stream says.
fn viewer_value(alloc: Global, role: Role, room: u32, table: u32) -> Result<Value, AllocError>
    ensures { IfOk result (λ v. view v ≡ viewer_data role room table) }
{
    match role {
        Role::Guest => json!(in alloc; {"role": "guest", "room": room, "table": table}),
        Role::Seat(seat) =>
            json!(in alloc; {"role": "seat", "room": room, "seat": seat, "table": table}),
        Role::Watcher(shadow) => {
            let shadow = seat_value(shadow);
            json!(in alloc; {"role": "watcher", "room": room, "shadow": shadow, "table": table})
        }
    }
}

/// The line that begins a stream.
pub(crate) fn viewer_text(
    alloc: Global,
    role: Role,
    room: u32,
    table: u32,
) -> Result<String, AllocError>
    ensures { IfOk result (λ s. string_bytes s
        ≡ line (codes "viewer") (viewer_data role room table)) }
{
    let value = viewer_value(alloc, role, room, table)?;
    line_text(alloc, "viewer", &value)
}

/// What the line of an open table says.
fn opened_value(
    alloc: Global,
    host: Name,
    variant_name: &str,
    options: &Options,
) -> Result<Value, AllocError>
    ensures { IfOk result (λ v. view v ≡ opened_data host variant_name.now options.now) }
{
    let host = text_value(alloc, host.as_str())?;
    let options = options_value(alloc, variant_name, options)?;
    json!(in alloc; {"host": host, "options": options})
}

/// The line of an open table.
pub(crate) fn opened_text(
    alloc: Global,
    host: Name,
    variant_name: &str,
    options: &Options,
) -> Result<String, AllocError>
    ensures { IfOk result (λ s. string_bytes s
        ≡ line (codes "opened") (opened_data host variant_name.now options.now)) }
{
    let value = opened_value(alloc, host, variant_name, options)?;
    line_text(alloc, "opened", &value)
}

/// What the line of a watcher says.
fn watching_value(alloc: Global, name: Name, shadow: Option<u8>) -> Result<Value, AllocError>
    ensures { IfOk result (λ v. view v ≡ watching_data name shadow) }
{
    let name = text_value(alloc, name.as_str())?;
    let shadow = seat_value(shadow);
    json!(in alloc; {"name": name, "shadow": shadow})
}

/// The line of a watcher.
pub(crate) fn watching_text(
    alloc: Global,
    name: Name,
    shadow: Option<u8>,
) -> Result<String, AllocError>
    ensures { IfOk result (λ s. string_bytes s
        ≡ line (codes "watching") (watching_data name shadow)) }
{
    let value = watching_value(alloc, name, shadow)?;
    line_text(alloc, "watching", &value)
}

/// A list of numbers of 64 bits.
fn numbers_value(alloc: Global, numbers: &[u64]) -> Result<Value, AllocError>
    ensures { IfOk result (λ v. view v ≡ wholes_data numbers.now) }
{
    let mut items = Vec::new(alloc);
    for n in numbers {
        items.push(Value::from(*n))?;
    }
    Ok(Value::Array(items))
}

/// What the line of the clock says.
fn clock_value(
    alloc: Global,
    banks: &[u64],
    moment: u64,
    running: Option<u8>,
) -> Result<Value, AllocError>
    ensures { IfOk result (λ v. view v ≡ clock_data banks.now moment running) }
{
    let banks = numbers_value(alloc, banks)?;
    let running = seat_value(running);
    json!(in alloc; {"banks": banks, "moment": moment, "running": running})
}

/// The line of the clock.
pub(crate) fn clock_text(
    alloc: Global,
    banks: &[u64],
    moment: u64,
    running: Option<u8>,
) -> Result<String, AllocError>
    ensures { IfOk result (λ s. string_bytes s
        ≡ line (codes "clock") (clock_data banks.now moment running)) }
{
    let value = clock_value(alloc, banks, moment, running)?;
    line_text(alloc, "clock", &value)
}

/// An action, or null.
fn action_or_null_value(alloc: Global, action: Option<Action>) -> Result<Value, AllocError>
    ensures { IfOk result (λ v. view v ≡ action_or_null action) }
{
    match action {
        Some(action) => action_value(alloc, 0, action),
        None => Ok(Value::Null),
    }
}

/// What the line of a review says.
fn review_value(
    alloc: Global,
    action: Option<Action>,
    hypos: u16,
    turn: u16,
) -> Result<Value, AllocError>
    ensures { IfOk result (λ v. view v ≡ review_data action hypos turn) }
{
    let action = action_or_null_value(alloc, action)?;
    json!(in alloc; {"action": action, "hypos": hypos, "turn": turn})
}

/// The line of a review.
pub(crate) fn review_text(
    alloc: Global,
    action: Option<Action>,
    hypos: u16,
    turn: u16,
) -> Result<String, AllocError>
    ensures { IfOk result (λ s. string_bytes s
        ≡ line (codes "review") (review_data action hypos turn)) }
{
    let value = review_value(alloc, action, hypos, turn)?;
    line_text(alloc, "review", &value)
}
