// Theorems only: what listing and advancing, used together step by step, come to. What they say stands in `specs/`.

#![tactic(auto)]
