#![tactic(auto)]
// Demand 3: what summaries and support copies tell, as theorems about the definitions of `rules`. No code.
