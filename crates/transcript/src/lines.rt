//! The lines of answers and of a fault, one behind the other.
ghost use Rattle.std.specs.Prelude.{◌≡◌, ◌++◌, IfOk, OnOk};
ghost use Rattle.std.specs.List.{flat_map};
ghost use Rattle.report.specs.Lines.{line};
ghost use Rattle.refusal.specs.Numbers.{fault_line};
ghost use Rattle.transcript.specs.Transcripts.{answer_lines, transcript};

use calls::Answer;
use refusal::Fault;
use report::{closing_text, verdict_text};
use std::alloc::{AllocError, Global};

/// Appends the lines of a verdict or a close; what is only taken has none.
fn append_answer(text: &mut Vec<u8>, answer: &Answer) -> Result<(), AllocError>
    ensures { OnOk result (text.new.items ≡ text.old.items ++ answer_lines answer.now) }
{
    match answer {
        Answer::Finding(verdict) => text.extend_from_slice(verdict_text(verdict).as_bytes()),
        Answer::Upheld(closing) => text.extend_from_slice(closing_text(closing).as_bytes()),
        Answer::Taken => Ok(()),
    }
}

/// Appends the lines of the answers, in their order.
fn append_answers(text: &mut Vec<u8>, answers: &[Answer]) -> Result<(), AllocError>
    ensures { OnOk result (text.new.items ≡ text.old.items ++ flat_map answer_lines answers.now) }
{
    for answer in answers {
        append_answer(text, answer)?;
    }
    Ok(())
}

/// Appends the line of a fault.
fn append_fault(alloc: Global, text: &mut Vec<u8>, fault: &Fault) -> Result<(), AllocError>
    ensures { OnOk result (text.new.items ≡ text.old.items ++ line (fault_line fault.now)) }
{
    let words = format!(in alloc; "{fault}\n")?;
    text.extend_from_slice(words.as_bytes())
}

/// The lines of the answers, in their order, and behind them that of the fault, if there is one.
/// Without memory for them there is none.
pub fn transcript(
    alloc: Global,
    answers: &[Answer],
    fault: Option<Fault>,
) -> Result<Vec<u8>, AllocError>
    ensures { IfOk result (λ v. v.items ≡ transcript answers.now fault) }
{
    let mut text = Vec::new(alloc);
    append_answers(&mut text, answers)?;
    if let Some(fault) = fault {
        append_fault(alloc, &mut text, &fault)?;
    }
    Ok(text)
}
