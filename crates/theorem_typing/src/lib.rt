// Theorems only: what typing at the cursor never does. They stand in `specs/`.

#![tactic(auto)]
