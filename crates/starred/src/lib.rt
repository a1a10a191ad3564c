#![tactic(auto)]
// Document 01's starred edges and further tables, computed from the definitions (specs/). There is no code here.
