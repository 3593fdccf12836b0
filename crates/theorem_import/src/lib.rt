// What follows from the promise of an import: its session is sent whole like any other. No code.
#![tactic(auto)]
