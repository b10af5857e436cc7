use calls::Audit;
use refusal::Refusal;

/// Calls that were not begun; the audit is given back.
#[derive(Drop)]
pub struct NotConducted {
    pub refusal: Refusal,
    pub audit: Audit,
}
