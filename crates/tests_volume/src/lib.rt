//! Tests of scripts on volumes that are mounted, by what their lines answer.
#![tactic(auto)]

#[cfg(test)]
mod answers;
#[cfg(test)]
mod device;
#[cfg(test)]
mod histories;
#[cfg(test)]
mod scripts;
#[cfg(test)]
mod side_by_side;
#[cfg(test)]
mod sizes;
#[cfg(test)]
mod stops;
#[cfg(test)]
mod whole_adds;
