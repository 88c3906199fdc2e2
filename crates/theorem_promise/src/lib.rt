// Theorems only: what a passed image promises a unit, and that no fault is a false alarm. What they say stands in `specs/`.

#![tactic(auto)]
