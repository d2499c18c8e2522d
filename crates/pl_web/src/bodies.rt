//! The bodies of replies, as JSON (RFC 8259).
//!
//! Each takes the memory for its text and answers otherwise only for want of it.
ghost use Rattle.std.specs.Prelude.{◌≡◌, IfOk, codes, false};
ghost use Rattle.serde_json.specs.Data.{Data, number, unsigned, string, object, member, no_members};
ghost use Rattle.serde_json.specs.View.{view};
ghost use Rattle.serde_json.specs.Written.{compact_text, has_float};
ghost use Rattle.pl_web.specs.Bodies.{difference_body, error_body, limit_body};
ghost use Rattle.pl_web.specs.Bodies.{capture_body, item_body, item_limit_body, line_object};
ghost use Rattle.pl_web.specs.Bodies.{line_objects, list_body, next_line, number_body};
ghost use Rattle.pl_web.specs.Bodies.{hit_object, hit_objects, hits_body, next_hit};
ghost use Rattle.pl_web.specs.Bodies.{profile_body, verdicts_body};
ghost use Rattle.std.specs.Prelude.{◌++◌, OnOk, decimal};
ghost use Rattle.std.specs.String.{string_bytes};
ghost use Rattle.json.specs.Print.{quoted};
ghost use Rattle.pl_base.specs.Rule.{name_of};

use pl_base::Rule;
use pl_engine::Judged;
use pl_keeper::KeyRow;
use pl_report::verdicts_json;
use pl_search::{Hit, Search};
use serde_json::{Value, json};
use std::alloc::{AllocError, Global};

/// The text of a value, with no space in it.
fn print(alloc: Global, value: &Value) -> Result<Vec<u8>, AllocError>
    ensures { (shown : Data) → view value.now ≡ shown → has_float shown ≡ false
        → IfOk result (λ body. body.items ≡ compact_text shown) }
{
    let text = value.to_string(alloc)?;
    Ok(text.into_bytes())
}

fn error_value(alloc: Global, name: &str) -> Result<Value, AllocError>
    ensures { IfOk result (λ value. view value
        ≡ object (member (codes "error") (string name.now) no_members)) }
{
    json!(in alloc; {"error": name})
}

/// What is wrong.
pub fn error(alloc: Global, name: &str) -> Result<Vec<u8>, AllocError>
    ensures { IfOk result (λ body. body.items ≡ error_body name.now) }
{
    print(alloc, &error_value(alloc, name)?)
}

fn limit_value(alloc: Global, name: &str, limit: u64) -> Result<Value, AllocError>
    ensures { IfOk result (λ value. view value ≡ object (member (codes "error") (string name.now)
        (member (codes "limit") (number (unsigned limit)) no_members))) }
{
    json!(in alloc; {"error": name, "limit": limit})
}

/// What is wrong, and the limit that doesn't hold.
pub fn limit(alloc: Global, name: &str, limit: u64) -> Result<Vec<u8>, AllocError>
    ensures { IfOk result (λ body. body.items ≡ limit_body name.now limit) }
{
    print(alloc, &limit_value(alloc, name, limit)?)
}

fn number_value(alloc: Global, name: &str, at: u64) -> Result<Value, AllocError>
    ensures { IfOk result (λ value. view value ≡ object (member (codes "error") (string name.now)
        (member (codes "number") (number (unsigned at)) no_members))) }
{
    json!(in alloc; {"error": name, "number": at})
}

/// What is wrong, and the number of the thing that is.
pub fn numbered(alloc: Global, name: &str, at: u64) -> Result<Vec<u8>, AllocError>
    ensures { IfOk result (λ body. body.items ≡ number_body name.now at) }
{
    print(alloc, &number_value(alloc, name, at)?)
}

fn difference_value(alloc: Global, length: u64, place: u64, sent: u64) -> Result<Value, AllocError>
    ensures { IfOk result (λ value. view value
        ≡ object (member (codes "error") (string (codes "other bytes"))
        (member (codes "length") (number (unsigned length))
        (member (codes "place") (number (unsigned place))
        (member (codes "sent") (number (unsigned sent)) no_members))))) }
{
    json!(in alloc; {"error": "other bytes", "length": length, "place": place, "sent": sent})
}

/// Other bytes are there: how many, where the first stands that differs, and how many were sent.
pub fn difference(alloc: Global, length: u64, place: u64, sent: u64) -> Result<Vec<u8>, AllocError>
    ensures { IfOk result (λ body. body.items ≡ difference_body length place sent) }
{
    print(alloc, &difference_value(alloc, length, place, sent)?)
}

fn profile_value(alloc: Global, bench: &str, profile: &str) -> Result<Value, AllocError>
    ensures { IfOk result (λ value. view value ≡ object (member (codes "bench") (string bench.now)
        (member (codes "profile") (string profile.now) no_members))) }
{
    json!(in alloc; {"bench": bench, "profile": profile})
}

/// A profile that is there.
pub fn profile(alloc: Global, bench: &str, profile: &str) -> Result<Vec<u8>, AllocError>
    ensures { IfOk result (λ body. body.items ≡ profile_body bench.now profile.now) }
{
    print(alloc, &profile_value(alloc, bench, profile)?)
}

fn item_value(alloc: Global, name: &str, item: u64, at: u64) -> Result<Value, AllocError>
    ensures { IfOk result (λ value. view value ≡ object (member (codes "error") (string name.now)
        (member (codes "item") (number (unsigned item))
        (member (codes "number") (number (unsigned at)) no_members)))) }
{
    json!(in alloc; {"error": name, "item": item, "number": at})
}

/// What is wrong with an item of a capture, by its number.
pub fn at_item(alloc: Global, name: &str, item: u64, at: u64) -> Result<Vec<u8>, AllocError>
    ensures { IfOk result (λ body. body.items ≡ item_body name.now item at) }
{
    print(alloc, &item_value(alloc, name, item, at)?)
}

fn item_limit_value(alloc: Global, name: &str, item: u64, limit: u64) -> Result<Value, AllocError>
    ensures { IfOk result (λ value. view value ≡ object (member (codes "error") (string name.now)
        (member (codes "item") (number (unsigned item))
        (member (codes "limit") (number (unsigned limit)) no_members)))) }
{
    json!(in alloc; {"error": name, "item": item, "limit": limit})
}

/// The item at which a capture passes a limit.
pub fn limit_at_item(
    alloc: Global,
    name: &str,
    item: u64,
    limit: u64,
) -> Result<Vec<u8>, AllocError>
    ensures { IfOk result (λ body. body.items ≡ item_limit_body name.now item limit) }
{
    print(alloc, &item_limit_value(alloc, name, item, limit)?)
}

fn capture_value(
    alloc: Global,
    bench: &str,
    key: &str,
    profile: &str,
    items: u64,
    verdicts: u64,
) -> Result<Value, AllocError>
    ensures { IfOk result (λ value. view value ≡ object (member (codes "bench") (string bench.now)
        (member (codes "items") (number (unsigned items))
        (member (codes "key") (string key.now)
        (member (codes "profile") (string profile.now)
        (member (codes "verdicts") (number (unsigned verdicts)) no_members)))))) }
{
    json!(in alloc; {
        "bench": bench, "items": items, "key": key, "profile": profile, "verdicts": verdicts
    })
}

/// A capture that is there: how many items and verdicts it has.
pub fn capture(
    alloc: Global,
    bench: &str,
    key: &str,
    profile: &str,
    items: u64,
    verdicts: u64,
) -> Result<Vec<u8>, AllocError>
    ensures { IfOk result (λ body. body.items
        ≡ capture_body bench.now key.now profile.now items verdicts) }
{
    print(
        alloc,
        &capture_value(alloc, bench, key, profile, items, verdicts)?,
    )
}

/// How many items and verdicts a capture has, and the verdicts that were kept.
pub fn verdicts(
    alloc: Global,
    bench: &str,
    key: &str,
    judged: &Judged,
) -> Result<Vec<u8>, AllocError>
    ensures { IfOk result (λ body. body.items ≡ verdicts_body bench.now key.now
        judged.now.items judged.now.total judged.now.verdicts.items) }
{
    verdicts_json(alloc, bench, key, judged)
}

fn line_value(alloc: Global, key: &str, length: u64, profile: &str) -> Result<Value, AllocError>
    ensures { IfOk result (λ value. view value ≡ object (member (codes "key") (string key.now)
        (member (codes "length") (number (unsigned length))
        (member (codes "profile") (string profile.now) no_members)))) }
{
    json!(in alloc; {"key": key, "length": length, "profile": profile})
}

fn line_of(alloc: Global, key: &str, length: u64, profile: &str) -> Result<Vec<u8>, AllocError>
    ensures { IfOk result (λ body. body.items ≡ line_object (record {
      key = key.now;
      profile = profile.now;
      length = length;
    })) }
{
    print(alloc, &line_value(alloc, key, length, profile)?)
}

/// A capture in the list of a bench.
fn line(alloc: Global, row: &KeyRow) -> Result<Vec<u8>, AllocError>
    ensures { IfOk result (λ body. body.items ≡ line_object row.now) }
{
    line_of(alloc, &row.key, row.length, &row.profile)
}

/// Appends a capture of the list behind another one.
fn push_next(alloc: Global, text: &mut Vec<u8>, row: &KeyRow) -> Result<(), AllocError>
    ensures { OnOk result (text.new.items ≡ text.old.items ++ next_line row.now) }
{
    text.extend_from_slice(b",")?;
    text.extend_from_slice(&line(alloc, row)?)
}

/// Appends the captures of the list, with commas between them.
fn push_lines(alloc: Global, text: &mut Vec<u8>, rows: &[KeyRow]) -> Result<(), AllocError>
    ensures { OnOk result (text.new.items ≡ text.old.items ++ line_objects rows.now) }
{
    let Some((first, rest)) = rows.split_first() else {
        return Ok(());
    };
    text.extend_from_slice(&line(alloc, first)?)?;
    for row in rest {
        push_next(alloc, text, row)?;
    }
    Ok(())
}

fn text_value(alloc: Global, word: &str) -> Result<Value, AllocError>
    ensures { IfOk result (λ value. view value ≡ string word.now) }
{
    json!(in alloc; word)
}

/// A text between quotes.
fn quote(alloc: Global, word: &str) -> Result<Vec<u8>, AllocError>
    ensures { IfOk result (λ text. text.items ≡ quoted word.now) }
{
    print(alloc, &text_value(alloc, word)?)
}

/// The captures of a bench.
#[tactic(auto, unfolding(crate::specs::Bodies::list_body))]
pub fn list(alloc: Global, bench: &str, rows: &[KeyRow]) -> Result<Vec<u8>, AllocError>
    ensures { IfOk result (λ body. body.items ≡ list_body bench.now rows.now) }
{
    let mut text = Vec::from_slice(alloc, b"{\"bench\":")?;
    text.extend_from_slice(&quote(alloc, bench)?)?;
    text.extend_from_slice(b",\"captures\":[")?;
    push_lines(alloc, &mut text, rows)?;
    text.extend_from_slice(b"]}")?;
    Ok(text)
}

fn count_value(alloc: Global, count: u64) -> Result<Value, AllocError>
    ensures { IfOk result (λ value. view value ≡ number (unsigned count)) }
{
    json!(in alloc; count)
}

/// A count.
fn count_of(alloc: Global, count: u64) -> Result<Vec<u8>, AllocError>
    ensures { IfOk result (λ text. text.items ≡ decimal count) }
{
    print(alloc, &count_value(alloc, count)?)
}

fn hit_value(alloc: Global, at: u64, key: &str) -> Result<Value, AllocError>
    ensures { IfOk result (λ value. view value ≡ object (member (codes "at") (number (unsigned at))
        (member (codes "key") (string key.now) no_members))) }
{
    json!(in alloc; {"at": at, "key": key})
}

fn hit_of(alloc: Global, at: u64, key: &str) -> Result<Vec<u8>, AllocError>
    ensures { IfOk result (λ body. body.items ≡ hit_object (record { key = key.now; at = at })) }
{
    print(alloc, &hit_value(alloc, at, key)?)
}

/// A hit: which item of which capture.
fn hit(alloc: Global, hit: &Hit) -> Result<Vec<u8>, AllocError>
    ensures { IfOk result (λ body. body.items ≡ hit_object hit.now) }
{
    hit_of(alloc, hit.at, hit.key.as_str())
}

/// Appends a hit behind another one.
fn push_next_hit(alloc: Global, text: &mut Vec<u8>, next: &Hit) -> Result<(), AllocError>
    ensures { OnOk result (text.new.items ≡ text.old.items ++ next_hit next.now) }
{
    text.extend_from_slice(b",")?;
    text.extend_from_slice(&hit(alloc, next)?)
}

/// Appends hits, with commas between them.
fn push_hits(alloc: Global, text: &mut Vec<u8>, hits: &[Hit]) -> Result<(), AllocError>
    ensures { OnOk result (text.new.items ≡ text.old.items ++ hit_objects hits.now) }
{
    let Some((first, rest)) = hits.split_first() else {
        return Ok(());
    };
    text.extend_from_slice(&hit(alloc, first)?)?;
    for next in rest {
        push_next_hit(alloc, text, next)?;
    }
    Ok(())
}

/// How often the captures of a bench break a rule, and the hits that are shown.
#[tactic(auto, unfolding(crate::specs::Bodies::hits_body))]
pub fn hits(alloc: Global, bench: &str, rule: Rule, search: &Search) -> Result<Vec<u8>, AllocError>
    ensures { IfOk result (λ body. body.items
        ≡ hits_body bench.now (name_of rule) search.now.total search.now.found) }
{
    let mut text = Vec::from_slice(alloc, b"{\"bench\":")?;
    text.extend_from_slice(&quote(alloc, bench)?)?;
    text.extend_from_slice(b",\"found\":[")?;
    push_hits(alloc, &mut text, search.found.as_slice())?;
    text.extend_from_slice(b"],\"rule\":")?;
    text.extend_from_slice(&quote(alloc, rule.name())?)?;
    text.extend_from_slice(b",\"total\":")?;
    text.extend_from_slice(&count_of(alloc, search.total)?)?;
    text.extend_from_slice(b"}")?;
    Ok(text)
}
