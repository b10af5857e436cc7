//! What is proved of every audit. The functions only state it.
ghost use Rattle.course.specs.Bounds.{CountsExist, LimitsRisk, MeasuresRisk};
ghost use Rattle.course.specs.Course.{rules_of};
ghost use Rattle.course.specs.Laws.{ConfirmsByRisk, CountsDecide, CountsDraws, NeverUpholdsWrongly, SettledStays};

use assorter::Assorter;
use betting::Policy;

/// Whatever the assorters and policies, of all draw sequences at most p in 1,000 bring the measured
/// risk of a contest that the cards contradict to p thousandths, and at most the risk limit's share
/// confirm, or uphold such a contest.
pub fn bounds_stand<A: Assorter, P: Policy>(_assorter: &A, _policy: &P)
    ensures measured { MeasuresRisk (rules_of A.Assorter P.Policy) }
    ensures limited { LimitsRisk (rules_of A.Assorter P.Policy) }
    ensures counted { CountsExist (rules_of A.Assorter P.Policy) }
{}

/// Over every run of calls: a verdict confirms just when each contest's risk is at most the risk
/// limit, and counts the entries that were taken; the game of a settled assertion never moves again;
/// a hand count of all places upholds a contest only if its claims hold of the cards, and just then
/// if no card is missing; and no script upholds a contest of which a claim is false.
pub fn laws_stand<A: Assorter, P: Policy>(_assorter: &A, _policy: &P)
    ensures confirms { ConfirmsByRisk (rules_of A.Assorter P.Policy) }
    ensures draws { CountsDraws (rules_of A.Assorter P.Policy) }
    ensures settles { SettledStays (rules_of A.Assorter P.Policy) }
    ensures decides { CountsDecide (rules_of A.Assorter P.Policy) }
    ensures upholds { NeverUpholdsWrongly (rules_of A.Assorter P.Policy) }
{}
