//! The printed lines of a verdict and of a closed hand count.
#![tactic(auto)]

ghost use Rattle.std.specs.Prelude.{◌≡◌, ℕ, ◌+◌, ◌*◌, ◌≤◌, List, length, min};
ghost use Rattle.arrayvec.specs.ArrayString.{array_string_len};
ghost use Rattle.report.specs.Lines.{closing_lines, draws_line, finding_line, line_count, numbered, outcome_line, report_answer, reported, risk_line, verdict_lines, WritesLine};
ghost use Rattle.report.specs.Told.{ClosingLinesTell, VerdictLinesTell};

use arrayvec::ArrayString;
use itoa::Buffer;
use refusal::Refusal;
use verdict::{Closing, Finding, Verdict};

/// A line of a report; the longest is "contest 255 risk 65535".
type Line = ArrayString<23>;

/// The lines of a verdict or a close.
pub type Text = ArrayString<256>;

/// "contest 1 risk 46"
fn risk_line(contest: u8, risk: u16) -> Line
    ensures { result.bytes ≡ risk_line contest risk }
{
    let mut line = Line::new();
    let mut digits = Buffer::new();
    line.push_str("contest ");
    line.push_str(digits.format(contest));
    line.push_str(" risk ");
    line.push_str(digits.format(risk));
    line.push_str("\n");
    line
}

/// "draws 17"
fn draws_line(draws: u16) -> Line
    ensures { result.bytes ≡ draws_line draws }
{
    let mut line = Line::new();
    line.push_str("draws ");
    line.push_str(Buffer::new().format(draws));
    line.push_str("\n");
    line
}

/// What the members are to do next, in words.
fn finding_line(finding: Finding) -> &'static str
    ensures text { result.now ≡ finding_line finding }
    ensures len { length result.now ≤ 16 }
{
    match finding {
        Finding::Confirm => "confirm\n",
        Finding::Continue => "continue\n",
        Finding::FullHandCount => "full hand count\n",
    }
}

/// "contest 1 upheld"
fn outcome_line(contest: u8, upheld: bool) -> Line
    ensures { result.bytes ≡ outcome_line contest upheld }
{
    let mut line = Line::new();
    line.push_str("contest ");
    line.push_str(Buffer::new().format(contest));
    line.push_str(if upheld { " upheld" } else { " not upheld" });
    line.push_str("\n");
    line
}

/// A line for each item, numbered from 1 on.
fn each_line<T: Copy, F: Fn(u8, T) -> Line>(items: &[T], line: F) -> Text
    requires callable { F.IsAlwaysCallable line }
    requires few { length items.now ≤ 8 }
    ensures text { (item : ℕ → T → List ℕ) → WritesLine (F.post line) item → result.bytes ≡ numbered item 1 items.now }
    ensures room { array_string_len result ≤ 23 * length items.now }
{
    let mut text = Text::new();
    for (i, item) in items.iter().enumerate() {
        text.push_str(line(i as u8 + 1, *item).as_str());
    }
    text
}

/// The lines of a verdict. Contests above 8 count as 8.
#[tactic(auto, using(crate::proofs::Counts::verdict_count, crate::proofs::Telling::verdict_lines_tell))]
pub fn verdict_text(verdict: &Verdict) -> Text
    ensures text { result.bytes ≡ verdict_lines verdict.now }
    ensures lines { line_count (verdict_lines verdict.now) ≡ min verdict.now.contests 8 + 2 }
    ensures tells { VerdictLinesTell verdict.now }
{
    let mut text = each_line(verdict.contest_risks(), risk_line);
    text.push_str(draws_line(verdict.draws).as_str());
    text.push_str(finding_line(verdict.finding));
    text
}

/// The lines of a closed hand count. Contests above 8 count as 8.
#[tactic(auto, using(crate::proofs::Counts::closing_count, crate::proofs::Telling::closing_lines_tell))]
pub fn closing_text(closing: &Closing) -> Text
    ensures text { result.bytes ≡ closing_lines closing.now }
    ensures lines { line_count (closing_lines closing.now) ≡ min closing.now.contests 8 }
    ensures tells { ClosingLinesTell closing.now }
{
    each_line(closing.contests_upheld(), outcome_line)
}

/// The text to the front of `out`, or nothing where it does not fit; how many bytes it has.
fn print(text: &str, out: &mut [u8]) -> Result<usize, Refusal>
    ensures answer { result ≡ report_answer text.now out.old }
    ensures out { out.new ≡ reported text.now out.old }
{
    let len = text.len();
    if len > out.len() {
        return Err(Refusal::ReportTooLong);
    }
    out[..len].copy_from_slice(text.as_bytes());
    Ok(len)
}

/// The lines of a verdict to the front of `out`, or nothing where they do not fit; how many bytes
/// they have. Contests above 8 count as 8.
pub fn report_verdict(verdict: &Verdict, out: &mut [u8]) -> Result<usize, Refusal>
    ensures answer { result ≡ report_answer (verdict_lines verdict.now) out.old }
    ensures out { out.new ≡ reported (verdict_lines verdict.now) out.old }
    ensures lines { line_count (verdict_lines verdict.now) ≡ min verdict.now.contests 8 + 2 }
    ensures tells { VerdictLinesTell verdict.now }
{
    print(verdict_text(verdict).as_str(), out)
}

/// The lines of a closed hand count to the front of `out`, or nothing where they do not fit; how
/// many bytes they have. Contests above 8 count as 8.
pub fn report_closing(closing: &Closing, out: &mut [u8]) -> Result<usize, Refusal>
    ensures answer { result ≡ report_answer (closing_lines closing.now) out.old }
    ensures out { out.new ≡ reported (closing_lines closing.now) out.old }
    ensures lines { line_count (closing_lines closing.now) ≡ min closing.now.contests 8 }
    ensures tells { ClosingLinesTell closing.now }
{
    print(closing_text(closing).as_str(), out)
}

#[cfg(test)]
mod tests {
    use super::*;

    #[test]
    fn one_contest_confirmed(rt: HostRuntime) {
        let verdict = Verdict {
            finding: Finding::Confirm,
            draws: 17,
            contests: 1,
            risks: [46, 9, 9, 9, 9, 9, 9, 9],
        };
        let mut out = [b'.'; 37];
        assert_eq!(rt; report_verdict(&verdict, &mut out), Ok(35));
        assert_eq!(rt;
            &out[..],
            b"contest 1 risk 46\ndraws 17\nconfirm\n..".as_slice()
        );
        let mut short = [b'.'; 34];
        assert_eq!(rt;
            report_verdict(&verdict, &mut short),
            Err(Refusal::ReportTooLong)
        );
        assert_eq!(rt; short, [b'.'; 34]);
    }

    #[test]
    fn two_contests_closed(rt: HostRuntime) {
        let closing = Closing {
            contests: 2,
            upheld: [true, false, true, true, true, true, true, true],
        };
        let mut out = [b'.'; 38];
        assert_eq!(rt; report_closing(&closing, &mut out), Ok(38));
        assert_eq!(rt;
            &out[..],
            b"contest 1 upheld\ncontest 2 not upheld\n".as_slice()
        );
    }
}
