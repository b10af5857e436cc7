/// The same bet each time; one above 1,000 counts as 1,000.
#[derive(Clone, Copy)]
pub struct Fixed {
    pub bet: u16,
}
