// Whole runs of a cell, answer by answer and account by account.
#![tactic(auto)]

#[cfg(test)]
mod runs;
#[cfg(test)]
mod tables;
#[cfg(test)]
mod tests;
