//! What is asked of a script.

/// What is asked of a script.
#[derive(Clone, Copy)]
pub enum ScriptTask {
    /// To print what each line of a script answers.
    Script,
    /// To compare the pair at the end of a script with a single machine.
    Check,
}
