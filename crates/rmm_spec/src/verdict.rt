//! What a checker answers.

/// Why a line of a certificate fails, or which finished call has none.
#[derive(Clone, Copy)]
pub enum Reason {
    /// The history has no such call.
    Unknown,
    /// An earlier line names the call.
    Repeated,
    /// A kept line names an unfinished call, or an unfinished line a finished one.
    Kind,
    /// The call returned before the call of an earlier line was made.
    Order,
    /// The machine doesn't give that reply there.
    Reply,
    /// Every line passes, and this call, by CPU and number, returned and has no line.
    Missing(u8, u32),
}

/// The judgement of a history and a certificate. Lines and steps count from 1.
#[derive(Clone, Copy)]
pub enum Verdict {
    /// The history isn't in its grammar: its bad line.
    HistoryFault(u64),
    /// The history is in its grammar and the certificate isn't: its bad line.
    CertificateFault(u64),
    /// A linearization, of so many lines.
    Yes(u64),
    /// The first step that fails, and why.
    No { step: u64, reason: Reason },
}
