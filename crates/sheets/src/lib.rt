// The smallest sheet and its neighbours (RULES 11), and what the judge's definitions answer to each,
// computed. Definitions and theorems; no code.
#![tactic(auto)]
