// What the master means: its state, its calls and replies, the order of checks and the rules. Definitions and theorems only.
#![tactic(auto)]
