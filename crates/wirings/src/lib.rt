// What a lawful wiring is, and what follows from it: definitions and theorems, and no code.
#![tactic(auto)]
