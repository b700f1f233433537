//! Sessions that are played on threads, as tests over the top call. Nothing stands on this crate.
#![tactic(auto)]

#[cfg(test)]
mod boards;
#[cfg(test)]
mod drawn;
#[cfg(test)]
mod early;
#[cfg(test)]
mod flight;
#[cfg(test)]
mod hangups;
#[cfg(test)]
mod load;
#[cfg(test)]
mod places;
#[cfg(test)]
mod plays;
