// Forms, fingerprints and coins of a bundle.
#![tactic(auto)]
