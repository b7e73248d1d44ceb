// What a run executes. `specs/` says which addresses, and how often each; nothing here runs.
#![tactic(auto)]
