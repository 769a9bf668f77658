//! Tests of runs whose disks stop or fail, at each of their calls in turn, of calls whose source, sink or disks
//! fail, or whose threads wait for one another, of ages that the log of a member stops, of disks that want groups,
//! of files that are cut or have become shorter, of the script of a drill, and of when something is said of a run.
#![tactic(auto)]

#[cfg(test)]
mod drill;
#[cfg(test)]
mod faults;
#[cfg(test)]
mod files;
#[cfg(test)]
mod groups;
#[cfg(test)]
mod meetings;
#[cfg(test)]
mod progress;
#[cfg(test)]
mod runs;
#[cfg(test)]
mod stopped;
#[cfg(test)]
mod stops;
#[cfg(test)]
mod top;
