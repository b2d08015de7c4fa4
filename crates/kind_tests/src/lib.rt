// Tests of the entry kinds: the codes at the edges of each range, accepted and refused.
#![tactic(auto)]

#[cfg(test)]
mod tests;
