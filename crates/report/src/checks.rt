// The report on a job file: what each line says, or what is wrong with it.
ghost use Rattle.std.specs.Prelude.{◌≡◌, ◌++◌, IfOk, MatchResult, string_bytes};
ghost use Rattle.frame.specs.Frames.{kind_of, payload_of};
ghost use Rattle.frame.specs.Requests.{request_of};
ghost use Rattle.report.specs.Texts.{saying_of};
ghost use Rattle.report.specs.Checks.{is_good, refused_text, finding_of, line_text, closing_text, report_of};

use crate::texts::saying;
use frame::{Frame, Lines, read};
use refusal::Refusal;
use std::alloc::{AllocError, Global};

fn refused_text(heap: Global, refusal: Refusal) -> Result<String, AllocError>
    ensures { IfOk result (λ s. string_bytes s ≡ refused_text refusal) }
{
    let number = refusal.number();
    format!(in heap; "refused {number}: {refusal}")
}

// What was read, in words: what the line says, or what is wrong with it.
fn found_text(heap: Global, found: Result<Frame<'_>, Refusal>) -> Result<String, AllocError>
    ensures { IfOk result (λ s. MatchResult found.entry (λ frame. string_bytes s ≡ saying_of (request_of (kind_of frame) (payload_of frame))) (λ refusal. string_bytes s ≡ refused_text refusal)) }
{
    match found {
        Ok(frame) => saying(heap, frame.request()),
        Err(refusal) => refused_text(heap, refusal),
    }
}

fn line_text(heap: Global, number: usize, place: usize, found: &str) -> Result<String, AllocError>
    ensures { IfOk result (λ s. string_bytes s ≡ line_text number place found.now) }
{
    format!(in heap; "line {number} at {place}: {found}\n")
}

fn closing_text(heap: Global, good: usize, bad: usize) -> Result<String, AllocError>
    ensures { IfOk result (λ s. string_bytes s ≡ closing_text good bad) }
{
    format!(in heap; "good lines: {good}, bad lines: {bad}\n")
}

// Adds the line of the report on a line of the job, and answers whether that is good.
fn report_line(
    heap: Global,
    report: &mut String,
    number: usize,
    place: usize,
    line: &[u8],
) -> Result<bool, AllocError>
    ensures { IfOk result (λ good. (good ≡ is_good line.now) × (string_bytes report.new ≡ string_bytes report.old ++ line_text number place (finding_of line.now))) }
{
    let found = read(line, place);
    let text = found_text(heap, found)?;
    let text = line_text(heap, number, place, text.as_str())?;
    report.push_str(text.as_str())?;
    Ok(found.is_ok())
}

// A line of text for each line of the job, and then how many are good and how many are bad.
pub fn check(heap: Global, job: &[u8]) -> Result<String, AllocError>
    ensures { IfOk result (λ s. string_bytes s ≡ report_of job.now) }
{
    let mut report = String::new(heap);
    let mut place = 0;
    let mut good = 0;
    let mut bad = 0;
    for line in Lines::of(job) {
        if report_line(heap, &mut report, good + bad + 1, place, line)? {
            good += 1;
        } else {
            bad += 1;
        }
        place += line.len();
    }
    let closing = closing_text(heap, good, bad)?;
    report.push_str(closing.as_str())?;
    Ok(report)
}
