//! The calls of an audit: it is opened, a card entered, a verdict asked, the audit escalated, a card
//! counted, the hand count closed.
#![tactic(auto)]

mod accepted;
mod answers;
mod counting;
mod drawing;
mod opens;
mod stage;
mod terms;

pub use answers::{Answer, CountCall, DrawCall, Reading, Standing};
pub use counting::HandCount;
pub use drawing::Audit;
pub use opens::{NotOpened, open, open_with};
pub use stage::Stage;
