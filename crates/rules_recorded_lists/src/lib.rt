// Lists of calls that the Rust answered, under the rules; theorems only, in specs/.
#![tactic(auto)]
