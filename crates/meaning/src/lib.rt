// What a design means: definitions alone, in specs/. The functions that are proved against them stand in the crates above.
#![tactic(auto)]
