// Laws that several crates share: little-endian numbers, parsers at a position, runs of items, writing. No code.
#![tactic(auto)]
