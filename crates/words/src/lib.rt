// What each call does to the words of the master's memory, and that the words after it stand for the state after it. Definitions and theorems only.
#![tactic(auto)]
