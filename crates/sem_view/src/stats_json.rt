// Counts as JSON.
use crate::stats::{AskCount, CallCost, LinkCount, RevokeTime, Stats};
use crate::stats_text::{call_name, total};
use sem_chart::message_names;
use sem_hint::key_text;
use sem_key::OutOfMemory;
use sem_names::{CODES, EVENTS};
use sem_waits::call_words;
use serde_json::{Map, Value};
use std::alloc::Global;

/// The counts as one line of JSON.
pub fn stats_as_json(alloc: Global, stats: &Stats) -> Result<String, OutOfMemory> {
    let mut all = Map::new(alloc);
    put(alloc, &mut all, "entries", number(stats.entries))?;
    let events = named(alloc, &EVENTS, stats.events.as_slice())?;
    put(alloc, &mut all, "events", events)?;
    let sent = total(stats.messages.as_slice());
    put(alloc, &mut all, "sent", number(sent))?;
    let names = message_names(alloc)?;
    let messages = named(alloc, names.as_slice(), stats.messages.as_slice())?;
    put(alloc, &mut all, "messages", messages)?;
    let codes = named(alloc, &CODES, stats.codes.as_slice())?;
    put(alloc, &mut all, "replies", codes)?;
    let links = link_list(alloc, stats.links.as_slice())?;
    put(alloc, &mut all, "links", links)?;
    let asks = ask_list(alloc, stats.asks.as_slice())?;
    put(alloc, &mut all, "asks", asks)?;
    let revokes = revoke_list(alloc, stats.revokes.as_slice())?;
    put(alloc, &mut all, "revokes", revokes)?;
    let calls = call_list(alloc, stats.calls.as_slice())?;
    put(alloc, &mut all, "calls", calls)?;
    put(alloc, &mut all, "chain", number(stats.chain))?;
    let mut text = Value::Object(all).to_string(alloc)?;
    text.push('\n')?;
    Ok(text)
}

// Adds a member.
fn put(
    alloc: Global,
    members: &mut Map<String, Value>,
    name: &str,
    value: Value,
) -> Result<(), OutOfMemory> {
    let name = String::from_str(alloc, name)?;
    drop(members.insert(name, value)?);
    Ok(())
}

fn number(count: usize) -> Value {
    Value::from(count as u64)
}

// The counts by their names.
fn named(alloc: Global, names: &[&'static str], counts: &[usize]) -> Result<Value, OutOfMemory> {
    let mut members = Map::new(alloc);
    for (name, count) in names.iter().zip(counts.iter()) {
        put(alloc, &mut members, name, number(*count))?;
    }
    Ok(Value::Object(members))
}

fn link_list(alloc: Global, links: &[LinkCount]) -> Result<Value, OutOfMemory> {
    let mut items = Vec::new(alloc);
    for link in links {
        let mut members = Map::new(alloc);
        put(alloc, &mut members, "from", Value::from(link.from))?;
        put(alloc, &mut members, "to", Value::from(link.to))?;
        put(alloc, &mut members, "sent", number(link.sent))?;
        put(alloc, &mut members, "longest", number(link.longest))?;
        items.push(Value::Object(members))?;
    }
    Ok(Value::Array(items))
}

// The VPEs that were asked.
fn ask_list(alloc: Global, asks: &[AskCount]) -> Result<Value, OutOfMemory> {
    let mut items = Vec::new(alloc);
    for ask in asks {
        let mut members = Map::new(alloc);
        put(alloc, &mut members, "vpe", Value::from(ask.vpe))?;
        put(alloc, &mut members, "longest", number(ask.longest))?;
        items.push(Value::Object(members))?;
    }
    Ok(Value::Array(items))
}

// The revokes and clears.
fn revoke_list(alloc: Global, revokes: &[RevokeTime]) -> Result<Value, OutOfMemory> {
    let mut items = Vec::new(alloc);
    for revoke in revokes {
        let mut members = Map::new(alloc);
        put(alloc, &mut members, "entry", number(revoke.entry))?;
        put(alloc, &mut members, "vpe", Value::from(revoke.vpe))?;
        let call = String::from_str(alloc, call_name(revoke))?;
        put(alloc, &mut members, "call", Value::String(call))?;
        let key = key_text(alloc, &revoke.key)?;
        put(alloc, &mut members, "key", Value::String(key))?;
        let taken = match revoke.taken {
            Some(taken) => number(taken),
            None => Value::Null,
        };
        put(alloc, &mut members, "taken", taken)?;
        items.push(Value::Object(members))?;
    }
    Ok(Value::Array(items))
}

fn call_list(alloc: Global, calls: &[CallCost]) -> Result<Value, OutOfMemory> {
    let mut items = Vec::new(alloc);
    for call in calls {
        let mut members = Map::new(alloc);
        put(alloc, &mut members, "vpe", Value::from(call.vpe))?;
        put(alloc, &mut members, "call", Value::from(call.index))?;
        let words = call_words(alloc, &call.call)?;
        put(alloc, &mut members, "words", Value::String(words))?;
        put(alloc, &mut members, "entries", number(call.entries))?;
        put(alloc, &mut members, "sent", number(call.sent))?;
        let taken = match call.taken {
            Some(taken) => number(taken),
            None => Value::Null,
        };
        put(alloc, &mut members, "taken", taken)?;
        items.push(Value::Object(members))?;
    }
    Ok(Value::Array(items))
}
