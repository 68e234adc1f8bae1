/// On which names a target has rows.
#[derive(Debug, Drop)]
pub struct Deps {
    /// The names with a change row, in the order of their numbers.
    pub change: Vec<u32>,
    /// Those with a created row, in the order of their numbers.
    pub created: Vec<u32>,
    /// Whether there is an always row.
    pub always: bool,
}
