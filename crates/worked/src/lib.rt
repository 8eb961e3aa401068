// The worked examples of document 01, shown from the definitions as one table. No code.
#![tactic(auto)]
