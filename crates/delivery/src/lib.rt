// What reaches a hall from one master: demand 3 over every session. Definitions and theorems only.
#![tactic(auto)]
