//! Do the keepers answer as the worked calls say, and both alike?
#![tactic(auto)]

#[cfg(test)]
mod alike;
#[cfg(test)]
mod crash;
#[cfg(test)]
mod files;
#[cfg(test)]
mod games;
#[cfg(test)]
mod unsound;
#[cfg(test)]
mod worked;
