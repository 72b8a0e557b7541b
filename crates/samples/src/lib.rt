// The sample that an expression asks for at a place of a source: definitions and their laws.
#![tactic(auto)]
