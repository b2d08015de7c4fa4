// Tests of scripts and of answer texts.
#![tactic(auto)]

#[cfg(test)]
mod tests;
