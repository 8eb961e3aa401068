// Words about lists that every room uses: the first place, how many, whether any, for every. Definitions and laws only.
#![tactic(auto)]
