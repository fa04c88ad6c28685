/// How a call of a method enters a transaction.
#[derive(Clone, Copy, Debug, PartialEq, Eq)]
pub enum TxnOption {
    Create,
    Join,
    CreateOrJoin,
    Suppress,
    Supported,
    NotAllowed,
}

/// What a method does with the grain's fields: reads them, writes them too, or neither.
#[derive(Clone, Copy, Debug, PartialEq, Eq)]
pub enum MethodKind {
    Read,
    Update,
    Plain,
}

/// How a call runs: in the caller's unit, as a unit of its own, or outside transactions, with or without
/// the caller's context passed on; or why it doesn't.
#[derive(Clone, Copy, Debug, PartialEq, Eq)]
pub enum Entered {
    Joined,
    NewUnit,
    Plain { context: bool },
    Refused(EntryRefusal),
}

/// Why an option refuses a call.
#[derive(Clone, Copy, Debug, PartialEq, Eq)]
pub enum EntryRefusal {
    /// The method joins a transaction and there is none.
    NoTransaction,
    /// The method doesn't run where there is a transaction.
    NotAllowed,
}
