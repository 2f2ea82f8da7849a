//! The addresses that the worlds of a run may share.

ghost use Rattle.std.specs.Prelude.{◌≡◌, ◌⊎◌, map};
ghost use Rattle.command_line.specs.Allowed.{AreAllowed, span_named};
ghost use Rattle.command_line.specs.Notices.{ReadsValue, memory, notice_of, usage};
ghost use Rattle.command_line.specs.Subcommands.{texts_in};

use crate::dumps::parts_at;
use crate::subcommands::wrong_value;
use crate::words::ArgsError;
use debugger_commands::number;
use mpu::Span;
use std::alloc::Global;

/// The most spans of a run.
const MAX_SPANS: usize = 16;

/// What `--allow` takes.
const ALLOW_ADVICE: &str = "\
--allow takes A-B, at most 16 times: two addresses, decimal or hexadecimal after 0x, of which B isn't below A.
";

/// Returns the spans of addresses that texts ask for, in their order.
pub fn spans_in<'a>(alloc: Global, texts: Option<&[&'a str]>) -> Result<Vec<Span>, ArgsError>
    ensures { ReadsValue (λ spans. AreAllowed (texts_in texts.entry) spans.items) result }
{
    match texts {
        Some(texts) => spans_named(alloc, texts),
        None => Ok(Vec::new(alloc)),
    }
}

/// Returns the spans of addresses that texts ask for, in their order.
#[tactic(auto, using(crate::proofs::Allowing::allowing))]
fn spans_named<'a>(alloc: Global, texts: &[&'a str]) -> Result<Vec<Span>, ArgsError>
    ensures { ReadsValue (λ spans. AreAllowed (map (λ t. t.now) texts.entry.now) spans.items) result }
{
    if texts.len() > MAX_SPANS {
        return Err(wrong_span(alloc, texts[MAX_SPANS]));
    }
    let mut spans = Vec::new(alloc);
    'texts: for text in texts {
        match span_named(text) {
            Some(span) => {
                if spans.push(span).is_err() {
                    return Err(ArgsError::OutOfMemory);
                }
            }
            None => return Err(wrong_span(alloc, text)),
        }
    }
    Ok(spans)
}

/// Returns the error of a text that asks for no span, or is one too many.
fn wrong_span(alloc: Global, text: &str) -> ArgsError
    ensures { (notice_of result ≡ usage) ⊎ (notice_of result ≡ memory) }
{
    wrong_value(alloc, text, "--allow <A-B>", ALLOW_ADVICE)
}

/// Returns the span of addresses that a text asks for.
fn span_named(text: &str) -> Option<Span>
    ensures { result ≡ span_named text.entry.now }
{
    let (first, last) = parts_at(text, '-')?;
    let first = number(first.as_bytes())?;
    let last = number(last.as_bytes())?;
    if first <= last {
        Some(Span { first, last })
    } else {
        None
    }
}
