//! Stops by the words of their lines.

ghost use Rattle.std.specs.Prelude.{◌≡◌, ◌≢◌, ◌<◌, ◌++◌, IfSome, List, None, codes, ℕ};
ghost use Rattle.std.specs.Str.{bytes_eq};
ghost use Rattle.command_line.specs.Stops.{IsPossible, IsStopText, without_stop};
ghost use Rattle.platform.specs.Text.{line_feed, stop_text};
ghost use Rattle.platform.specs.declared.stop.Stop.TheVariants as stop;

use instruction_set::unpredictable::UnpredictableCase;
use platform::stop::{NamedStop, Stop, Unsupported};
use trace::lines::stop_line;

/// Returns a text without the `stop ` that it may begin with.
pub fn without_stop(text: &str) -> &str
    ensures { result.now ≡ without_stop text.entry.now }
{
    match text.strip_prefix("stop ") {
        Some(words) => words,
        None => text,
    }
}

/// Returns the stop whose line has these words after `stop `.
pub fn stop_named(words: &str) -> Option<Stop>
    ensures some { IfSome result (λ why. IsPossible why × (stop_text why ≡ words.now)) }
    ensures none { result ≡ None → ¬ IsStopText words.now }
{
    if let Some(stop) = plain_stop_named(words) {
        return Some(stop);
    }
    if let Some(stop) = breakpoint_named(words) {
        return Some(stop);
    }
    if let Some(stop) = case_named::<UnpredictableCase>(words) {
        return Some(stop);
    }
    case_named::<Unsupported>(words)
}

/// Returns the stop with these words, if it is one that has neither a number nor a name.
fn plain_stop_named(words: &str) -> Option<Stop>
    ensures some { IfSome result (λ why. IsPossible why × (stop_text why ≡ words.now)) }
    ensures not_steps { result ≡ None → stop_text stop.StepLimit ≢ words.now }
    ensures not_lockup { result ≡ None → stop_text stop.Lockup ≢ words.now }
    ensures not_reset { result ≡ None → stop_text stop.ResetRequested ≢ words.now }
{
    if has_words(&Stop::StepLimit, words) {
        Some(Stop::StepLimit)
    } else if has_words(&Stop::Lockup, words) {
        Some(Stop::Lockup)
    } else if has_words(&Stop::ResetRequested, words) {
        Some(Stop::ResetRequested)
    } else {
        None
    }
}

/// Returns the breakpoint with these words.
fn breakpoint_named(words: &str) -> Option<Stop>
    ensures some { IfSome result (λ why. IsPossible why × (stop_text why ≡ words.now)) }
    ensures none { result ≡ None → (number : ℕ) → number < 256 → stop_text (stop.Breakpoint number) ≢ words.now }
{
    'numbers: for number in 0..256_u32 {
        let stop = Stop::Breakpoint(number as u8);
        if has_words(&stop, words) {
            return Some(stop);
        }
    }
    None
}

/// Returns the named stop of this kind with these words.
fn case_named<N: NamedStop + 'static>(words: &str) -> Option<Stop>
    ensures some { IfSome result (λ why. (case : N) × (why ≡ N.stop case) × (stop_text why ≡ words.now)) }
    ensures none { result ≡ None → (case : N) → stop_text (N.stop case) ≢ words.now }
{
    'cases: for case in N::all() {
        let stop = case.stop();
        if has_words(&stop, words) {
            return Some(stop);
        }
    }
    None
}

/// Returns whether two stops have the same words.
#[tactic(auto, unfolding(platform::specs::Text::stop_line))]
pub fn have_same_words(stop: &Stop, other: &Stop) -> bool
    ensures { result ≡ bytes_eq (stop_text stop.now) (stop_text other.now) }
{
    let (line, other_line) = (stop_line(stop), stop_line(other));
    words_in(line.as_slice()) == words_in(other_line.as_slice())
}

/// Returns whether a text is the words of this stop.
#[tactic(auto, unfolding(platform::specs::Text::stop_line))]
fn has_words(stop: &Stop, words: &str) -> bool
    ensures { result ≡ bytes_eq (stop_text stop.now) words.now }
{
    let line = stop_line(stop);
    words_in(line.as_slice()) == words.as_bytes()
}

/// Returns the words in the line of a stop: all after `stop `, without the line feed.
#[tactic(auto, using(crate::proofs::Worded::worded, crate::proofs::Worded::long_enough))]
pub fn words_in(line: &[u8]) -> &[u8]
    ensures { (words : List ℕ) → line.entry.now ≡ (codes "stop " ++ words) ++ line_feed → result.now ≡ words }
{
    if line.len() < 6 {
        return line;
    }
    let (_, after) = line.split_at(5);
    let (words, _) = after.split_at(after.len() - 1);
    words
}
