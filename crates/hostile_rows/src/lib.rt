//! Texts that are no session, or no session with its journals, as tests over the top call. Nothing stands
//! on this crate.
#![tactic(auto)]

#[cfg(test)]
mod bytes;
#[cfg(test)]
mod journals;
#[cfg(test)]
mod long;
#[cfg(test)]
mod modems;
#[cfg(test)]
mod processes;
#[cfg(test)]
mod sessions;
#[cfg(test)]
mod tables;
