// What a stage answers (RULES 6.1, 6.2): every rule is kept, or
// the first broken one with its number and its place.
#![tactic(auto)]

// A broken rule: its refusal number, and its place, a record and a column. RULES 6.2 names a refusal by its number,
// and definitions, laws and C go by it, so it is kept and is no enum.
#[derive(Clone, Copy)]
pub struct Refusal {
    pub number: u32,
    pub place: u32,
    pub column: u32,
}

// What a stage answers. A refusal is handed on with `?`.
pub type Verdict = Result<(), Refusal>;
