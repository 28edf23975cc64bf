// Examples of the book: scripts of calls, each with the answer that the rules give.
#![tactic(auto)]

#[cfg(test)]
mod amounts;
#[cfg(test)]
mod desk;
#[cfg(test)]
mod fields;
#[cfg(test)]
mod looks;
#[cfg(test)]
mod script;
#[cfg(test)]
mod scripts;
#[cfg(test)]
mod tests;
#[cfg(test)]
mod year;
