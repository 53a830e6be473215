// What is told of a stop.
use crate::{Id, Phase, StopName};

/// What is told of a stopped request or reply: the phase in which it was stopped, and the stop's name,
/// component and rule. The rule is `-` where the component has none that could be named.
#[derive(Drop)]
pub struct StopText {
    pub phase: Phase,
    pub name: StopName,
    pub id: Id,
    pub rule: Id,
}
