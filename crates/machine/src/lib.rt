// The machine between code and rules: what the parts of the code stand for. No code.
#![tactic(auto)]
