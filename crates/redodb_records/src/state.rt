/// The state of a name. It is idle until its first start, and a target from then on.
#[derive(Clone, Copy, Debug, PartialEq, Eq)]
pub enum State {
    Idle,
    /// This session is building it.
    Building(u16),
    Built,
    Failed,
}
