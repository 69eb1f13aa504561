#![tactic(auto)]
// 01's examples, held against the definitions. No code.
