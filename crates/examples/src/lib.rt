// The samples, and call lists with what running them prints, as one list, with one theorem by computation. No code.
#![tactic(auto)]
