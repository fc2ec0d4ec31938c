//! Prints why reads and critical sections contradict each schedule of a pair.
ghost use Rattle.std.specs.Prelude.{◌≡◌, ◌<◌, ◌++◌, codes};
ghost use Rattle.explain_report.specs.Contradicted.{after_relation, around, before_relation, before_text, by_one, by_two, left_out_text, other_text, relation_text, request_in, step_number, step_text, steps_text};
ghost use Rattle.explain_report.specs.Told.{contradicted_text};
ghost use Rattle.explain_report.specs.Verdicts.{contradicted_head};
ghost use Rattle.rapid_text.specs.Appended.{Appended, AppendedOne};

use crate::accesses::append_pair;
use crate::event_lines::append_line;
use crate::pieces::{append_count, append_number, append_words};
use closed_order::{Rule, Step};
use event_index::Indexed;
use must_order::Analysis;
use rapid_text::OutOfMemory;

// The most steps that are printed: the last ones.
const MOST_STEPS: usize = 200;

/// Appends the line with which a contradicted pair begins.
pub(crate) fn append_contradicted_head(out: &mut Vec<u8>) -> Result<(), OutOfMemory>
    ensures { Appended result out.old out.new contradicted_head }
{
    append_words(
        out,
        b"apart: no order of the critical sections and reads shows the two side by side\n",
    )
}

/// Appends the text of a contradicted pair: its first line, the two events, and the last 200 steps.
pub(crate) fn append_contradicted(
    out: &mut Vec<u8>,
    analysis: &Analysis<'_>,
    steps: &[Step],
    pair: (u32, u32),
) -> Result<(), OutOfMemory>
    ensures { AppendedOne result out.old out.new (λ text. text ≡ contradicted_text analysis.now steps.now pair.0 pair.1) }
{
    append_contradicted_head(out)?;
    append_pair(out, analysis, pair.0, pair.1)?;
    append_words(out, b"since in such an order\n")?;
    append_steps(out, analysis.indexed(), steps, pair)?;
    Ok(())
}

/// Appends the last 200 steps, and how many there are before them.
fn append_steps(
    out: &mut Vec<u8>,
    indexed: &Indexed,
    steps: &[Step],
    pair: (u32, u32),
) -> Result<(), OutOfMemory>
    ensures { Appended result out.old out.new (steps_text indexed.now pair steps.now) }
{
    let from = steps.len().saturating_sub(MOST_STEPS);
    append_left_out(out, from as u64)?;
    for at in from..steps.len() {
        append_step(out, indexed, at as u64, steps[at], pair)?;
    }
    Ok(())
}

/// Appends that this many steps are not printed, if there are any.
fn append_left_out(out: &mut Vec<u8>, count: u64) -> Result<(), OutOfMemory>
    ensures { Appended result out.old out.new (left_out_text count) }
{
    if count == 0 {
        return Ok(());
    }
    append_words(out, b"the first ")?;
    append_count(out, count, b"step")?;
    append_words(out, b" are left out\n")?;
    Ok(())
}

/// Appends the line of the step's first event, and its relation to the second.
fn append_step(
    out: &mut Vec<u8>,
    indexed: &Indexed,
    at: u64,
    step: Step,
    pair: (u32, u32),
) -> Result<(), OutOfMemory>
    requires { at < 18446744073709551615 }
    ensures { Appended result out.old out.new (step_text indexed.now pair at step) }
{
    append_step_number(out, at)?;
    append_words(out, b". ")?;
    append_line(out, indexed, step.first)?;
    append_words(out, b"  ")?;
    append_before_relation(out, step.rule)?;
    append_relation(out, step.first, step.second)?;
    append_after_relation(out, step.rule, pair)?;
    append_words(out, b"\n")?;
    Ok(())
}

/// Appends the number of the step with this index.
fn append_step_number(out: &mut Vec<u8>, at: u64) -> Result<(), OutOfMemory>
    requires { at < 18446744073709551615 }
    ensures { Appended result out.old out.new (step_number at) }
{
    append_number(out, at + 1)
}

/// Appends that the event is there, or comes before the second one.
fn append_relation(out: &mut Vec<u8>, first: u32, second: Option<u32>) -> Result<(), OutOfMemory>
    ensures { Appended result out.old out.new (relation_text first second) }
{
    match second {
        None => append_words(out, b"is there"),
        Some(event) => append_before(out, first, event),
    }
}

/// Appends that the first event comes before the second one, which may be the same.
fn append_before(out: &mut Vec<u8>, first: u32, second: u32) -> Result<(), OutOfMemory>
    ensures { Appended result out.old out.new (before_text first second) }
{
    append_words(out, b"comes before ")?;
    append_other(out, first, second)?;
    Ok(())
}

/// Appends the second event, or that it is the first one itself.
fn append_other(out: &mut Vec<u8>, first: u32, second: u32) -> Result<(), OutOfMemory>
    ensures { Appended result out.old out.new (other_text first second) }
{
    if first == second {
        append_words(out, b"itself")
    } else {
        append_number(out, u64::from(second))
    }
}

/// Appends what makes a step true, before the relation of its events.
fn append_before_relation(out: &mut Vec<u8>, rule: Rule) -> Result<(), OutOfMemory>
    ensures { Appended result out.old out.new (before_relation rule) }
{
    match rule {
        Rule::Overwritten { read, .. } => {
            append_around(out, b"is written before ", read, b" reads, so it ")
        }
        Rule::Unseen { .. } => append_words(out, b"reads what that overwrites, so it "),
        Rule::Initial { .. } => append_words(out, b"reads what nobody wrote, so it "),
        Rule::Enters { event, .. } => {
            append_around(
                out,
                b"comes before ",
                event,
                b" in a critical section, so it ",
            )
        }
        Rule::Ends { start, .. } => {
            let words = b"ends a critical section that begins first, at ";
            append_around(out, words, start, b", so it ")
        }
        Rule::Base { .. } | Rule::Must | Rule::Through { .. } | Rule::Lasts { .. } => Ok(()),
    }
}

/// Appends what makes it true, after that, and the steps that it follows from.
fn append_after_relation(out: &mut Vec<u8>, rule: Rule, pair: (u32, u32)) -> Result<(), OutOfMemory>
    ensures { Appended result out.old out.new (after_relation pair rule) }
{
    match rule {
        Rule::Base { request } => append_base(out, request, pair),
        Rule::Must => append_words(out, b" in every correct reordering"),
        Rule::Through { left, right } => append_two(out, left, right),
        Rule::Overwritten {
            read: _,
            before,
            due,
        } => append_two(out, before, due),
        Rule::Unseen { after, due } => append_two(out, after, due),
        Rule::Initial { due } => append_one(out, due),
        Rule::Enters {
            event: _,
            before,
            due,
        } => append_two(out, before, due),
        Rule::Ends { start: _, before } => append_one(out, before),
        Rule::Lasts { request: _, due } => append_lasting(out, due),
    }
}

fn append_base(out: &mut Vec<u8>, request: u32, pair: (u32, u32)) -> Result<(), OutOfMemory>
    ensures { Appended result out.old out.new (around (codes ", so that ") (request_in pair request) (codes " can be next")) }
{
    append_around(
        out,
        b", so that ",
        request_in(pair, request),
        b" can be next",
    )
}

/// The event of the pair that is the request with this index.
fn request_in(pair: (u32, u32), request: u32) -> u32
    ensures { result ≡ request_in pair request }
{
    if request == 0 { pair.0 } else { pair.1 }
}

fn append_lasting(out: &mut Vec<u8>, due: u32) -> Result<(), OutOfMemory>
    ensures { Appended result out.old out.new (codes ", whose critical section does not end" ++ by_one due) }
{
    append_words(out, b", whose critical section does not end")?;
    append_one(out, due)?;
    Ok(())
}

/// Appends the number between two texts.
fn append_around(
    out: &mut Vec<u8>,
    words: &[u8],
    number: u32,
    rest: &[u8],
) -> Result<(), OutOfMemory>
    ensures { Appended result out.old out.new (around words.now number rest.now) }
{
    append_words(out, words)?;
    append_number(out, u64::from(number))?;
    append_words(out, rest)
}

/// Appends the number of the step that a step follows from.
fn append_one(out: &mut Vec<u8>, at: u32) -> Result<(), OutOfMemory>
    ensures { Appended result out.old out.new (by_one at) }
{
    append_words(out, b", by ")?;
    append_step_number(out, u64::from(at))
}

/// The same for two steps.
fn append_two(out: &mut Vec<u8>, left: u32, right: u32) -> Result<(), OutOfMemory>
    ensures { Appended result out.old out.new (by_two left right) }
{
    append_one(out, left)?;
    append_words(out, b" and ")?;
    append_step_number(out, u64::from(right))
}
