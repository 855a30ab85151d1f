// Theorems only: what holds of reports that grow by pieces of a stream (CHIP K10), over the calls' definitions, stands in specs/.
#![tactic(auto)]
