//! What only a caller of the libraries without a store sees: no request of the program shows it, and no clause says it.
#![tactic(auto)]

#[cfg(test)]
mod filters;
#[cfg(test)]
mod groups;
#[cfg(test)]
mod imports;
#[cfg(test)]
mod inbox;
#[cfg(test)]
mod refusals;
#[cfg(test)]
mod report_texts;
#[cfg(test)]
mod segments;
#[cfg(test)]
mod serving;
#[cfg(test)]
mod watched;
