//! What is told of a capture as JSON (RFC 8259).
ghost use Rattle.std.specs.Prelude.{◌≡◌, ◌+◌, ◌≤◌, ◌++◌, IfOk, OnOk, decimal};
ghost use Rattle.std.specs.String.{string_bytes};
ghost use Rattle.arrayvec.specs.ArrayString.{array_string_len};
ghost use Rattle.json.specs.Print.{quoted};
ghost use Rattle.serde_json.specs.Data.{string};
ghost use Rattle.serde_json.specs.View.{view};
ghost use Rattle.pl_report.specs.Json.{cited_value, next_object, objects, verdict_object};
ghost use Rattle.pl_report.specs.Json.{verdicts_object};

use crate::line::{self, Line};
use itoa::Buffer;
use pl_base::Verdict;
use pl_engine::Judged;
use serde_json::{Value, json};
use std::alloc::{AllocError, Global};

/// `{"bench":B,"items":I,"key":K,"total":V,"verdicts":[..]}`: whose capture it is, how many items
/// and verdicts it has, and the verdicts that were kept, each as
/// `{"at":I,"first":X,"rule":R,"second":Y}` with the number of a cited item or `null`. There is no
/// space and no line feed.
///
/// # Errors
///
/// Where memory for the text is wanting.
#[tactic(auto, unfolding(crate::specs::Json::verdicts_object))]
pub fn verdicts_json(
    alloc: Global,
    bench: &str,
    key: &str,
    judged: &Judged,
) -> Result<Vec<u8>, AllocError>
    ensures { IfOk result
        (λ text. text.items ≡ verdicts_object bench.now key.now judged.now) }
{
    let mut text = String::new(alloc);
    text.push_str("{\"bench\":")?;
    push_text(alloc, &mut text, bench)?;
    text.push_str(",\"items\":")?;
    push_number(&mut text, judged.items)?;
    text.push_str(",\"key\":")?;
    push_text(alloc, &mut text, key)?;
    text.push_str(",\"total\":")?;
    push_number(&mut text, judged.total)?;
    text.push_str(",\"verdicts\":[")?;
    push_verdicts(&mut text, &judged.verdicts)?;
    text.push_str("]}")?;
    Ok(text.into_bytes())
}

/// Appends the verdicts, with commas between them.
fn push_verdicts(text: &mut String, verdicts: &[Verdict]) -> Result<(), AllocError>
    ensures { OnOk result
        (string_bytes text.new ≡ string_bytes text.old ++ objects verdicts.now) }
{
    let Some((first, rest)) = verdicts.split_first() else {
        return Ok(());
    };
    text.push_str(verdict_object(first).as_str())?;
    for verdict in rest {
        push_next(text, verdict)?;
    }
    Ok(())
}

/// Appends a comma and a verdict.
fn push_next(text: &mut String, verdict: &Verdict) -> Result<(), AllocError>
    ensures { OnOk result
        (string_bytes text.new ≡ string_bytes text.old ++ next_object verdict.now) }
{
    text.push_str(",")?;
    text.push_str(verdict_object(verdict).as_str())
}

/// A verdict as an object, made without memory.
#[tactic(auto, using(crate::proofs::Names::short), unfolding(crate::specs::Json::verdict_object))]
fn verdict_object(v: &Verdict) -> Line
    ensures { result.bytes ≡ verdict_object v.now }
{
    let mut line = Line::new();
    line.push_str("{\"at\":");
    line::push_number(&mut line, v.at);
    line.push_str(",\"first\":");
    push_cited(&mut line, v.first);
    line.push_str(",\"rule\":\"");
    line.push_str(v.rule.name());
    line.push_str("\",\"second\":");
    push_cited(&mut line, v.second);
    line.push_str("}");
    line
}

/// Appends a cited item.
fn push_cited(line: &mut Line, item: Option<u64>)
    requires { array_string_len line.old + 20 ≤ 160 }
    ensures bytes { line.new.bytes ≡ line.old.bytes ++ cited_value item }
    ensures length { array_string_len line.new ≤ array_string_len line.old + 20 }
{
    match item {
        Some(number) => line::push_number(line, number),
        None => line.push_str("null"),
    }
}

/// Appends a text between quotes.
fn push_text(alloc: Global, text: &mut String, word: &str) -> Result<(), AllocError>
    ensures { OnOk result (string_bytes text.new ≡ string_bytes text.old ++ quoted word.now) }
{
    let value = text_value(alloc, word)?;
    let printed = value.to_string(alloc)?;
    text.push_str(&printed)
}

/// A text as JSON has it.
fn text_value(alloc: Global, word: &str) -> Result<Value, AllocError>
    ensures { IfOk result (λ value. view value ≡ string word.now) }
{
    json!(in alloc; word)
}

/// Appends a number without leading zeros.
fn push_number(text: &mut String, number: u64) -> Result<(), AllocError>
    ensures { OnOk result (string_bytes text.new ≡ string_bytes text.old ++ decimal number) }
{
    text.push_str(Buffer::new().format(number))
}
