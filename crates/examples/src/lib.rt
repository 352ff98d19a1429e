// The table of examples of document 01 stands in specs/; this crate has no functions.

#![tactic(auto)]
