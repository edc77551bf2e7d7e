// No code: specs/ holds the meaning of the recipe, the tables and the rows, as definitions.
#![tactic(auto)]
