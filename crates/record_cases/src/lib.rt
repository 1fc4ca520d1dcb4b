// Records, faults and lines, case by case. The expected values are written out here, or follow from tables here.
#![tactic(auto)]

#[cfg(test)]
mod lines;
#[cfg(test)]
mod reading;
#[cfg(test)]
mod samples;
#[cfg(test)]
mod writing;
