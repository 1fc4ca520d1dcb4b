// The cell and its queues on cases.
#![tactic(auto)]

#[cfg(test)]
mod picture;
#[cfg(test)]
mod queues;
#[cfg(test)]
mod tests;
