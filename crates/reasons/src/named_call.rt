//! A call of a history by its name, a step that names one, and a call that never returned.

use history::Call;

/// A call by its CPU and number, with what the history tells of it: its lines, its command and its answer.
#[derive(Drop)]
pub struct NamedCall {
    pub cpu: u8,
    pub number: u32,
    pub call: Call,
}

/// A step before the one that fails, with the call that its line names. The step is the line's number in the certificate.
#[derive(Drop)]
pub struct EarlierStep {
    pub step: u64,
    pub call: NamedCall,
}

/// A call that never returned, with the step whose line names it, where one does.
#[derive(Drop)]
pub struct UnfinishedCall {
    pub call: NamedCall,
    pub step: Option<u64>,
}
