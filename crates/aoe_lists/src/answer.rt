//! What a request that reads or changes the lists comes to.
use aoe_base::AoeError;

/// What a request comes to, beside the arguments of its reply and the lists that it makes, which
/// stand where the caller says.
#[derive(Clone, Copy, PartialEq, Eq)]
pub enum Answer {
    /// It gets no reply.
    Silent,

    /// It gets a reply with the arguments, and the lists stay as they are. The arguments of a reply
    /// with an error are empty, but for `ConfigStringPresent`, whose reply has the string that
    /// stands: with every other error the target repeats the request's own arguments.
    Reply(Option<AoeError>),

    /// It succeeds and makes other lists; then it gets a reply with the arguments.
    Change,
}
