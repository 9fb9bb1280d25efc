// The theorems of demands 2 and 3 over all layers. No calls.
#![tactic(auto)]
