use thiserror::Error;

/// Why the system refused a call.
#[derive(Clone, Copy, Debug, PartialEq, Eq, Error)]
pub enum Refused {
    /// Nothing stands under that name.
    #[error("there is no such file")]
    Missing,
    /// The process may not write there, or nobody may.
    #[error("it may only be read")]
    ReadOnly,
    /// A signal came before anything was done.
    #[error("the call was interrupted")]
    Interrupted,
    /// Anything else.
    #[error("the system refused the call")]
    Failed,
}
