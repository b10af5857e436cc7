//! What an entry or a count may show.
ghost use Rattle.std.specs.Prelude.{◌≡◌, ◌^◌, ◌≤◌, map, length, nat_lt};
ghost use Rattle.course.specs.Terms.{blank, marks_fit, shown_refusal};
ghost use Rattle.calls.specs.Answers.{refusal_in};
ghost use Rattle.calls.specs.Calls.{reading_of, terms_of};

use super::{Size, Terms};
use crate::answers::Reading;
use refusal::Refusal;

/// Whether there is no mark.
fn is_blank(marks: &[u32]) -> bool
    ensures { result ≡ blank marks.now }
{
    marks.iter().all(|m| *m == 0)
}

/// Whether all marks are for one of so many candidates.
fn fits(marks: u32, candidates: u8) -> bool
    ensures { result ≡ nat_lt marks (2 ^ candidates) }
{
    candidates >= 32 || marks >> candidates == 0
}

/// Whether each contest's marks are for its candidates, and there are none for a contest that
/// isn't there.
fn marks_fit(sizes: &[Size], marks: &[u32; 8]) -> bool
    requires { length sizes.now ≤ 8 }
    ensures { result ≡ marks_fit (map (λ x. x.candidates) sizes.now) marks.now }
{
    let (own, others) = marks.split_at(sizes.len());
    own.iter()
        .zip(sizes)
        .all(|(m, size)| fits(*m, size.candidates))
        && is_blank(others)
}

/// Refuses what is shown alone with the first refusal that applies.
pub(crate) fn check_shown(terms: &Terms, shown: &Reading) -> Result<(), Refusal>
    ensures { refusal_in result ≡ shown_refusal (terms_of terms.now) (reading_of shown.now) }
{
    if shown.place == 0 || shown.place > terms.cards {
        return Err(Refusal::BadPlace);
    }
    if shown.found > 1 {
        return Err(Refusal::BadFound);
    }
    let marks = &shown.card.marks;
    let fit = marks_fit(&terms.sizes, marks);
    if !fit || shown.found == 0 && !is_blank(marks) {
        return Err(Refusal::BadMarks);
    }
    Ok(())
}
