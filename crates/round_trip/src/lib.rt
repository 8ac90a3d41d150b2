// Reading and writing forms undo each other: two theorems over the contracts of reader and writer, and no code.
#![tactic(auto)]
