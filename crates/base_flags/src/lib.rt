// Flags that are lent, handed in or cross to C: a byte, set by every value but 0 (specs/Flag.antt). No code: the test is `flag != 0`.
#![tactic(auto)]
