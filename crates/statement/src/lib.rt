// The statement of a session (document 01, "Statement"): what is answered. What it says is in specs/; the code is in `stating`.
#![tactic(auto)]

// Refusal 0 and the statement's length, or 20 and the length needed.
#[repr(C)]
#[derive(Clone, Copy)]
pub struct Written {
    pub refusal: u64,
    pub length: u64,
}
