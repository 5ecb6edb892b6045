//! What only a caller of the desk and of the crates below it sees: no request of the program shows it, and no clause says it.
#![tactic(auto)]

#[cfg(test)]
mod asked;
#[cfg(test)]
mod calls;
#[cfg(test)]
mod forty;
#[cfg(test)]
mod fused;
#[cfg(test)]
mod memory_of_downloads;
#[cfg(test)]
mod runs;
#[cfg(test)]
mod told;
#[cfg(test)]
mod whole_contents;
#[cfg(test)]
mod work;
