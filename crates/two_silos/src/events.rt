use base_types::List;
use silo_nodes::Shift;

/// What happens in the world. One that names a node, a packet or a grain that isn't there, or would pass a limit,
/// changes nothing.
#[derive(Drop)]
pub enum WorldEvent {
    /// A transaction begins, with one list of shifts a participant.
    Start { parts: List<List<Shift>> },
    /// A packet is handed to its receiver, for the first time or again.
    Deliver { packet: u32 },
    /// The coordinator asks again for the votes that it waits for.
    NudgeCoordinator,
    /// A participant asks for the decisions that it waits for.
    Nudge { node: u8 },
    /// The coordinator stops and begins again with its log.
    RestartCoordinator,
    /// A participant stops and begins again with its log.
    Restart { node: u8 },
}
