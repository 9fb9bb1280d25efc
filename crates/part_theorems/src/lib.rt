// Theorems on parts: what a cut part holds, and what soundness says of any part. No calls.
#![tactic(auto)]
