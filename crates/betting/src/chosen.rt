use super::fixed::Fixed;
use super::shrinking::Shrinking;

/// The policies that a setup can choose from.
#[derive(Clone, Copy)]
pub enum ChosenPolicy {
    Fixed(Fixed),
    Shrinking(Shrinking),
}
