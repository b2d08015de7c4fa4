// Scripts with the answers that they must get, over tables of several shapes and over the
// roster's own pair of a table and a link.
#![tactic(auto)]

#[cfg(test)]
mod calls;
#[cfg(test)]
mod limits;
#[cfg(test)]
mod runs;
