//! What of sessions, joins and selects only code can show: sessions over catalogs, readers and writers that fail, how many values
//! a join compares, and that a select finds memory. What streams are answered is shown by `tests/rows`. The tests stand in a crate
//! of their own, since a crate with tests is proved twice.
#![tactic(auto)]

#[cfg(test)]
mod calls;
#[cfg(test)]
mod counts;
#[cfg(test)]
mod faults;
#[cfg(test)]
mod linked;
#[cfg(test)]
mod over;
#[cfg(test)]
mod pages;
#[cfg(test)]
mod selects;
